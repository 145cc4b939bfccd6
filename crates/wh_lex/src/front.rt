ghost use Rattle.std.specs.Prelude.{◌≡◌, ◌<◌, ◌≤◌, ◌↔◌, length, slice_index, take, drop, IfOk, IfSome, IsTrue};
ghost use Rattle.wh_lex.specs.Tokens.{is_name_byte, name_len, digits_len, line_len, mark_len, start_of, front_of, name_part, number_part, text_of, text_part, run_part, mark_part, IsWithin};

use std::alloc::{AllocError, Global};
use wh_base::tokens::TokenKind;
use wh_base::txt::Txt;

/// What stands at the front of the rest of a text, and how many bytes of it follow the first.
#[derive(Debug, Drop)]
pub enum Front {
    Blank(usize),
    Token(TokenKind, Txt, usize),
    Bad,
    Open,
}

fn is_name_byte(b: u8) -> bool
    ensures { result ≡ is_name_byte b }
{
    b.is_ascii_alphabetic() || b.is_ascii_digit() || b == b'_' || b == b'$' || b == b'#'
}

fn name_len(bytes: &[u8]) -> usize
    ensures len { result ≡ name_len bytes.now }
    ensures within { result ≤ length bytes.now }
{
    bytes.iter().take_while(|b| is_name_byte(**b)).count()
}

fn digits_len(bytes: &[u8]) -> usize
    ensures len { result ≡ digits_len bytes.now }
    ensures within { result ≤ length bytes.now }
{
    bytes.iter().take_while(|b| b.is_ascii_digit()).count()
}

fn line_len(bytes: &[u8]) -> usize
    ensures len { result ≡ line_len bytes.now }
    ensures within { result ≤ length bytes.now }
{
    bytes.iter().take_while(|b| **b != 10).count()
}

fn mark_len(first: u8, next: u8) -> usize
    ensures { result ≡ mark_len first next }
{
    match first {
        b'<' => { if next == b'>' || next == b'=' { 2 } else { 1 } }
        b'>' => { if next == b'=' { 2 } else { 1 } }
        b'!' => { if next == b'=' { 2 } else { 0 } }
        b'(' | b')' | b',' | b'.' | b';' | b'*' | b'=' | b'+' | b'-' | b'?' => 1,
        _ => 0,
    }
}

/// The text behind a quote, and how many bytes it has with the quote at its end.
#[tactic(auto, using(crate::proofs::Texts::steps))]
fn quoted(alloc: Global, bytes: &[u8]) -> Result<Option<(Txt, usize)>, AllocError>
    ensures text { IfOk result (λ r. r ≡ text_of bytes.now) }
    ensures within { IfOk result (λ r. IfSome r (λ t. t.1 ≤ length bytes.now)) }
{
    let mut text = Vec::new(alloc);
    let mut at = 0;
    while at < bytes.len() {
        let b = bytes[at];
        if b == 10 {
            return Ok(None);
        }
        if b != b'\'' {
            text.push(b)?;
            at += 1;
        } else if at + 1 < bytes.len() && bytes[at + 1] == b'\'' {
            text.push(b'\'')?;
            at += 2;
        } else {
            return Ok(Some((Txt::from_vec(text)?, at + 1)));
        }
    }
    Ok(None)
}

/// What a text begins with.
#[derive(Clone, Copy, Debug, PartialEq, Eq)]
pub enum Start {
    Blank,
    Comment,
    Name,
    Number,
    Quote,
    Mark,
}

fn start_of(first: u8, next: u8) -> Start
    ensures { result ≡ start_of first next }
{
    if first == b' ' || first == b'\t' || first == 10 || (first == 13 && next == 10) {
        Start::Blank
    } else if first == b'-' && next == b'-' {
        Start::Comment
    } else if first.is_ascii_alphabetic() {
        Start::Name
    } else if first.is_ascii_digit() {
        Start::Number
    } else if first == b'\'' {
        Start::Quote
    } else {
        Start::Mark
    }
}

fn run(kind: TokenKind, most: usize, more: usize, text: Vec<u8>) -> Result<Front, AllocError>
    ensures { IfOk result (λ f. f ≡ run_part kind most more text.items) }
{
    if more < most {
        Ok(Front::Token(kind, Txt::from_vec(text)?, more))
    } else {
        Ok(Front::Bad)
    }
}

fn name(alloc: Global, bytes: &[u8]) -> Result<Front, AllocError>
    requires { 0 < length bytes.now }
    ensures part { IfOk result (λ f. f ≡ name_part bytes.now) }
    ensures within { IfOk result (λ f. IsWithin f bytes.now) }
{
    let more = name_len(&bytes[1..]);
    let text = bytes[..more + 1]
        .iter()
        .map(|b| b.to_ascii_uppercase())
        .collect(alloc)?;
    run(TokenKind::Name, 30, more, text)
}

fn number(alloc: Global, bytes: &[u8]) -> Result<Front, AllocError>
    requires { 0 < length bytes.now }
    ensures part { IfOk result (λ f. f ≡ number_part bytes.now) }
    ensures within { IfOk result (λ f. IsWithin f bytes.now) }
{
    let more = digits_len(&bytes[1..]);
    let text = Vec::from_slice(alloc, &bytes[..more + 1])?;
    run(TokenKind::Number, 38, more, text)
}

fn mark(alloc: Global, bytes: &[u8]) -> Result<Front, AllocError>
    requires { 0 < length bytes.now }
    ensures part { IfOk result (λ f. f ≡ mark_part (mark_len (slice_index bytes.now 0) (slice_index bytes.now 1)) bytes.now) }
    ensures within { IfOk result (λ f. IsWithin f bytes.now) }
{
    let len = mark_len(bytes[0], byte_or_zero(bytes, 1));
    if len == 0 || len > bytes.len() {
        return Ok(Front::Bad);
    }
    let text = Txt::from_slice(alloc, &bytes[..len])?;
    Ok(Front::Token(TokenKind::Mark, text, len - 1))
}

fn text(alloc: Global, bytes: &[u8]) -> Result<Front, AllocError>
    requires { 0 < length bytes.now }
    ensures part { IfOk result (λ f. f ≡ text_part (text_of (drop 1 bytes.now))) }
    ensures within { IfOk result (λ f. IsWithin f bytes.now) }
{
    match quoted(alloc, &bytes[1..])? {
        Some((text, len)) => Ok(Front::Token(TokenKind::Text, text, len)),
        None => Ok(Front::Open),
    }
}

fn byte_or_zero(bytes: &[u8], at: usize) -> u8
    ensures { result ≡ slice_index bytes.now at }
{
    if at < bytes.len() { bytes[at] } else { 0 }
}

/// What stands at the front of a text that isn't empty.
#[tactic(auto, unfolding(crate::specs::Tokens::front_of))]
pub fn read_front(alloc: Global, bytes: &[u8]) -> Result<Front, AllocError>
    requires { 0 < length bytes.now }
    ensures front { IfOk result (λ f. f ≡ front_of bytes.now) }
    ensures within { IfOk result (λ f. IsWithin f bytes.now) }
{
    let next = byte_or_zero(bytes, 1);
    match start_of(bytes[0], next) {
        Start::Blank => Ok(Front::Blank(0)),
        Start::Comment => Ok(Front::Blank(line_len(&bytes[1..]))),
        Start::Name => name(alloc, bytes),
        Start::Number => number(alloc, bytes),
        Start::Quote => text(alloc, bytes),
        Start::Mark => mark(alloc, bytes),
    }
}
