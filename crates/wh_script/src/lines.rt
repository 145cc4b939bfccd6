ghost use Rattle.def_grammar.specs.Forms.{name_in};
ghost use Rattle.def_grammar.specs.Lines.{content_of, directive_of, load_of_name, without_last, words_in};
ghost use Rattle.def_grammar.specs.Script.{line_at, session_number, word_fault, worker_number};
ghost use Rattle.std.specs.Prelude.{◌≡◌, ◌<◌, ◌≤◌, ◌^◌, ◌==◌, ◌+◌, [], ◌∷◌, IfOk, IfSome, count_by, decimal, length, take_while};
ghost use Rattle.std.specs.Str.Lossy.{utf8_valid_len};
ghost use Rattle.wh_base.specs.Lists.{last, option_nat_is, same_text};
ghost use Rattle.wh_script.specs.Sections.{HasFewBytes, HasTwo, IsNextWord, directive_in, is_session, is_space, meant, session_by_digits, two_digits, word_of};

use itoa::Buffer;
use std::alloc::{AllocError, Global};
use wh_base::statements::ScriptKind;
use wh_base::txt::Txt;
use wh_ddl_text::refreshes::name_in;
use wh_query_text::parser::ParseFault;

/// A directive of a script, with the words that it names.
#[derive(Drop)]
pub enum Directive<'a> {
    Setup,
    /// The word that should be a session number.
    Session(&'a [u8]),
    /// The bytes in which the words behind `@order` stand.
    Order(&'a [u8]),
    /// The word that should be a number of workers.
    Workers(&'a [u8]),
    /// The name of the table.
    Load(Txt),
    EndLoad,
    EndScript,
    /// None of the grammar.
    Unknown,
}

/// A word, and the bytes behind it.
#[derive(Clone, Copy)]
pub struct NextWord<'a> {
    pub word: &'a [u8],
    pub rest: &'a [u8],
}

/// What stands on a line: its bytes without the LF, and without one CR before it.
#[tactic(auto, using(crate::proofs::Ends::ends))]
pub fn content_of(raw: &[u8]) -> &[u8]
    ensures content { result.now ≡ content_of raw.now }
    ensures few { length result.now ≤ length raw.now }
{
    if !is_last(raw, 10) {
        return raw;
    }
    without_last(13, &raw[..raw.len().saturating_sub(1)])
}

// The bytes without this one at the end.
#[tactic(auto, using(crate::proofs::Ends::ends))]
fn without_last(last: u8, bytes: &[u8]) -> &[u8]
    ensures rest { result.now ≡ without_last last bytes.now }
    ensures few { length result.now ≤ length bytes.now }
{
    if !is_last(bytes, last) {
        return bytes;
    }
    &bytes[..bytes.len().saturating_sub(1)]
}

#[tactic(auto, using(crate::proofs::Ends::lasts))]
fn is_last(bytes: &[u8], byte: u8) -> bool
    ensures { result ≡ option_nat_is (last bytes.now) byte }
{
    let n = bytes.len();
    if n == 0 {
        return false;
    }
    bytes[n - 1] == byte
}

fn spaces(bytes: &[u8]) -> usize
    ensures count { result ≡ length (take_while is_space bytes.now) }
    ensures within { result ≤ length bytes.now }
{
    bytes.iter().take_while(|b| **b == 32).count()
}

fn word_len(bytes: &[u8]) -> usize
    ensures count { result ≡ word_of bytes.now }
    ensures within { result ≤ length bytes.now }
{
    bytes.iter().take_while(|b| **b != 32).count()
}

// The bytes behind the spaces in front.
#[tactic(auto, using(crate::proofs::Spaces::starts))]
fn behind_spaces(bytes: &[u8]) -> &[u8]
    ensures words { words_in result.now ≡ words_in bytes.now }
    ensures none { word_of result.now ≡ 0 → words_in bytes.now ≡ [] }
    ensures within { length result.now ≤ length bytes.now }
{
    bytes.split_at(spaces(bytes)).1
}

/// The first word of some bytes, which spaces alone separate, and the bytes behind it; `None` where there is no word.
#[tactic(auto, using(crate::proofs::Spaces::words))]
pub fn next_word(bytes: &[u8]) -> Option<NextWord<'_>>
    ensures next { IsNextWord bytes.now result }
    ensures within { IfSome result (λ w. length w.word.now + length w.rest.now ≤ length bytes.now) }
    ensures shorter { IfSome result (λ w. length w.rest.now < length bytes.now) }
{
    let rest = behind_spaces(bytes);
    let len = word_len(rest);
    if len == 0 {
        return None;
    }
    let (word, rest) = rest.split_at(len);
    Some(NextWord { word, rest })
}

/// The directive on a line, given with the LF that ends it: its first word, with as many words behind it as it takes.
///
/// An error says that memory ran out.
pub fn directive_on(alloc: Global, raw: &[u8]) -> Result<Directive<'_>, AllocError>
    requires { length raw.now < 2 ^ 32 }
    ensures directive { IfOk result (λ d. meant d ≡ directive_in raw.now) }
    ensures few { IfOk result HasFewBytes }
{
    let Some(first) = next_word(content_of(raw)) else {
        return Ok(Directive::Unknown);
    };
    let Some(second) = next_word(first.rest) else {
        return Ok(alone(first.word, first.rest));
    };
    match next_word(second.rest) {
        Some(_) => Ok(with_many(first.word, first.rest)),
        None => with_one(alloc, first.word, first.rest, second.word),
    }
}

fn is(word: &[u8], name: &[u8]) -> bool
    ensures { result ≡ same_text word.now name.now }
{
    word == name
}

// The directive without a word behind its first.
fn alone<'a>(word: &[u8], rest: &'a [u8]) -> Directive<'a>
    requires words { words_in rest.now ≡ [] }
    requires small { length rest.now < 2 ^ 32 }
    ensures directive { meant result ≡ directive_of word.now [] }
    ensures few { HasFewBytes result }
{
    if is(word, b"@setup") {
        Directive::Setup
    } else if is(word, b"@order") {
        Directive::Order(rest)
    } else if is(word, b"@endload") {
        Directive::EndLoad
    } else if is(word, b"@end") {
        Directive::EndScript
    } else {
        Directive::Unknown
    }
}

fn with_one<'a>(
    alloc: Global,
    word: &[u8],
    rest: &'a [u8],
    second: &'a [u8],
) -> Result<Directive<'a>, AllocError>
    requires words { words_in rest.now ≡ second.now ∷ [] }
    requires few { length second.now < 2 ^ 32 }
    requires small { length rest.now < 2 ^ 32 }
    ensures directive { IfOk result (λ d. meant d ≡ directive_of word.now (second.now ∷ [])) }
    ensures few { IfOk result HasFewBytes }
{
    if is(word, b"@session") {
        Ok(Directive::Session(second))
    } else if is(word, b"@load") {
        load_of(alloc, second)
    } else if is(word, b"@order") {
        Ok(Directive::Order(rest))
    } else if is(word, b"@workers") {
        Ok(Directive::Workers(second))
    } else {
        Ok(Directive::Unknown)
    }
}

// The directive with two words or more behind its first.
fn with_many<'a>(word: &[u8], rest: &'a [u8]) -> Directive<'a>
    requires words { HasTwo (words_in rest.now) }
    requires small { length rest.now < 2 ^ 32 }
    ensures directive { meant result ≡ directive_of word.now (words_in rest.now) }
    ensures few { HasFewBytes result }
{
    if is(word, b"@order") {
        Directive::Order(rest)
    } else {
        Directive::Unknown
    }
}

// `@load` of a word, which has to be a name.
fn load_of<'a>(alloc: Global, word: &'a [u8]) -> Result<Directive<'a>, AllocError>
    requires { length word.now < 2 ^ 32 }
    ensures directive { IfOk result (λ d. meant d ≡ load_of_name (name_in word.now)) }
    ensures few { IfOk result HasFewBytes }
{
    match name_in(alloc, word) {
        Ok(Some(name)) => Ok(Directive::Load(name)),
        Ok(None) => Ok(Directive::Unknown),
        Err(_) => Err(AllocError),
    }
}

// The number that one or two bytes are where they are digits, and 0 for another count of bytes.
fn two_digits(word: &[u8]) -> u32
    ensures { result ≡ two_digits word.now }
{
    if word.len() == 1 {
        u32::from(word[0].saturating_sub(b'0'))
    } else if word.len() == 2 {
        u32::from(word[0].saturating_sub(b'0')) * 10 + u32::from(word[1].saturating_sub(b'0'))
    } else {
        0
    }
}

fn is_decimal(number: u32, word: &[u8]) -> bool
    ensures { result ≡ same_text (decimal number) word.now }
{
    let mut buffer = Buffer::new();
    buffer.format(number).as_bytes() == word
}

fn is_session(number: u32, word: &[u8]) -> bool
    ensures { result ≡ is_session number word.now }
{
    1 <= number && number <= 64 && is_decimal(number, word)
}

fn session_by_digits(word: &[u8]) -> Option<u32>
    ensures { result ≡ session_by_digits word.now }
{
    let number = two_digits(word);
    if is_session(number, word) {
        Some(number)
    } else {
        None
    }
}

/// The session number that a word is: 1 to 64 in decimal, without a sign or a leading zero; `None` for any other word.
#[tactic(auto, using(crate::proofs::Numbers::sessions))]
pub fn session_number(word: &[u8]) -> Option<u32>
    ensures { result ≡ session_number word.now }
{
    session_by_digits(word)
}

/// The number of workers that a word is: 1 to 8 in the same form; `None` for any other word.
pub fn worker_number(word: &[u8]) -> Option<u32>
    ensures { result ≡ worker_number word.now }
{
    let number = session_number(word)?;
    if number <= 8 { Some(number) } else { None }
}

/// How many bytes in front are UTF-8.
#[tactic(auto, using(crate::proofs::Behind::valid))]
pub(crate) fn valid_len(bytes: &[u8]) -> usize
    ensures count { result ≡ utf8_valid_len bytes.now }
    ensures within { result ≤ length bytes.now }
{
    match std::str::from_utf8(bytes) {
        Ok(_) => bytes.len(),
        Err(fault) => fault.valid_up_to(),
    }
}

/// What is wrong with a word that is no number of a session, or of workers: `NotUtf8` where it begins with a byte that is no
/// UTF-8, and else `SessionNumber`.
pub fn word_fault(word: &[u8]) -> ScriptKind
    ensures { result ≡ word_fault word.now }
{
    if valid_len(word) == 0 {
        ScriptKind::NotUtf8
    } else {
        ScriptKind::SessionNumber
    }
}

/// A place in a text and the number of its line, counted from 1.
#[derive(Clone, Copy)]
pub struct LineMark {
    pub place: usize,
    pub line: u64,
}

// How many lines end in these bytes.
fn line_ends(bytes: &[u8]) -> usize
    ensures count { result ≡ count_by (λ b. b == 10) bytes.now }
    ensures few { result ≤ length bytes.now }
{
    bytes.iter().filter(|b| **b == 10).count()
}

/// The number of the line on which a place is, counted from 1. Reads the bytes before that place.
#[tactic(auto, using(crate::proofs::Counts::counts))]
pub fn line_at(bytes: &[u8], place: usize) -> u64
    requires few { length bytes.now < 2 ^ 32 }
    requires within { place ≤ length bytes.now }
    ensures { result ≡ line_at bytes.now place }
{
    line_ends(&bytes[..place]) as u64 + 1
}

/// The mark of a place, from that of one no later: the bytes between the two alone are read.
#[tactic(auto, using(crate::proofs::Counts::counts))]
pub fn mark_at(bytes: &[u8], known: LineMark, place: usize) -> LineMark
    requires few { length bytes.now < 2 ^ 32 }
    requires known { known.line ≡ line_at bytes.now known.place }
    requires later { known.place ≤ place }
    requires within { place ≤ length bytes.now }
    ensures place { result.place ≡ place }
    ensures line { result.line ≡ line_at bytes.now place }
{
    LineMark {
        place,
        line: known.line + line_ends(&bytes[known.place..place]) as u64,
    }
}
