ghost use Rattle.std.specs.List.{list_all};
ghost use Rattle.std.specs.Prelude.{◌≡◌, ◌++◌, ◌<◌, ◌≤◌, ◌^◌, IfErr, IfOk, OnOk, length, option_to_list, true};
ghost use Rattle.wh_lex.specs.Lex.{AreSpans, Gives, IsFaultOf, IsStatement, is_semicolon, statement_at, token_fits, tokens_at, tokens_of};

use crate::front::{Front, read_front};
use std::alloc::{AllocError, Global};
use wh_base::seq::Seq;
use wh_base::tokens::{Token, TokenKind};
use wh_base::txt::Txt;

/// Why a text has no tokens. A place is counted from 0 in bytes.
#[derive(Clone, Copy, Debug, PartialEq, Eq)]
pub enum LexFault {
    /// No token begins at this place, or a name there has more than 30 bytes, or a number more than 38 digits.
    BadCharacter { place: u32 },
    /// A text that begins at this place isn't closed on its line.
    OpenQuote { place: u32 },
    /// Memory ran out.
    Memory,
}

/// The tokens of one statement without the semicolon that closes it, the semicolon, and the place behind it. Where no
/// semicolon stands, that place is the end of the text.
#[derive(Drop)]
pub struct StatementTokens {
    pub tokens: Seq<Token>,
    pub closed: Option<Token>,
    pub next: usize,
}

/// The tokens of a text. They stand in it one after another, and each number is below 10 ^ 38.
///
/// An error is the first place at which no token begins, or want of memory. The rules of tokens are those of Oracle's
/// SQL, with this project's own bounds: 30 bytes for a name, 38 digits for a number, a text on one line.
#[tactic(auto, using(crate::proofs::Spans::spans, crate::proofs::Numbers::numbers))]
pub fn tokens(alloc: Global, text: &str) -> Result<Seq<Token>, LexFault>
    requires { length text.now < 2 ^ 32 }
    ensures gives { Gives result (tokens_of text.now) }
    ensures spans { IfOk result (λ all. AreSpans text.now 0 all) }
    ensures numbers { IfOk result (λ all. list_all token_fits all ≡ true) }
{
    all_tokens(alloc, text)
}

#[tactic(auto, using(crate::proofs::Statements::steps), unfolding(crate::specs::Lex::tokens_of))]
fn all_tokens(alloc: Global, text: &str) -> Result<Seq<Token>, LexFault>
    requires { length text.now < 2 ^ 32 }
    ensures { Gives result (tokens_of text.now) }
{
    let bytes = text.as_bytes();
    let mut all = Seq::new(alloc);
    let mut at = 0;
    while at < bytes.len() {
        let StatementTokens {
            tokens,
            closed,
            next,
        } = statement_tokens(alloc, bytes, at)?;
        let Ok(()) = push_statement(&mut all, tokens, closed) else {
            return Err(LexFault::Memory);
        };
        at = next;
    }
    Ok(all)
}

// The tokens of one statement with its semicolon behind those before it.
fn push_statement(
    all: &mut Seq<Token>,
    tokens: Seq<Token>,
    closed: Option<Token>,
) -> Result<(), AllocError>
    ensures { OnOk result (all.new ≡ all.old ++ (tokens ++ option_to_list closed)) }
{
    all.append(tokens)?;
    match closed {
        Some(semicolon) => all.push(semicolon),
        None => Ok(()),
    }
}

/// The tokens of one statement: from a place in the text on, up to and with the next semicolon, or to the end. Each
/// byte is read once, so the statements of a text are read one after another in the time of the whole.
///
/// An error is the first place before that semicolon at which no token begins, or want of memory.
#[tactic(auto, using(crate::proofs::Statements::laws))]
pub fn statement_tokens(
    alloc: Global,
    text: &[u8],
    from: usize,
) -> Result<StatementTokens, LexFault>
    requires few { length text.now < 2 ^ 32 }
    requires within { from ≤ length text.now }
    ensures gives { Gives result (statement_at text.now from) }
    ensures part { IfOk result (λ s. IsStatement text.now from (tokens_at text.now from) s) }
    ensures fault { IfErr result (IsFaultOf (tokens_at text.now from)) }
{
    up_to_semicolon(alloc, text, from)
}

fn is_semicolon(kind: TokenKind, text: &Txt) -> bool
    ensures { result ≡ is_semicolon kind text.now }
{
    match kind {
        TokenKind::Mark => text.as_slice() == b";".as_slice(),
        _ => false,
    }
}

#[tactic(auto, using(crate::proofs::Steps::steps), unfolding(crate::specs::Lex::statement_at))]
fn up_to_semicolon(alloc: Global, text: &[u8], from: usize) -> Result<StatementTokens, LexFault>
    requires few { length text.now < 2 ^ 32 }
    requires within { from ≤ length text.now }
    ensures { Gives result (statement_at text.now from) }
{
    let mut tokens = Seq::new(alloc);
    let mut at = from;
    while at < text.len() {
        let Ok(front) = read_front(alloc, &text[at..]) else {
            return Err(LexFault::Memory);
        };
        match front {
            Front::Blank(more) => at += more + 1,
            Front::Token(kind, words, more) => {
                let start = at as u32;
                at += more + 1;
                let end = at as u32;
                let closes = is_semicolon(kind, &words);
                let token = Token {
                    kind,
                    text: words,
                    start,
                    end,
                };
                if closes {
                    return Ok(StatementTokens {
                        tokens,
                        closed: Some(token),
                        next: at,
                    });
                }
                let Ok(()) = tokens.push(token) else {
                    return Err(LexFault::Memory);
                };
            }
            Front::Bad => return Err(LexFault::BadCharacter { place: at as u32 }),
            Front::Open => return Err(LexFault::OpenQuote { place: at as u32 }),
        }
    }
    Ok(StatementTokens {
        tokens,
        closed: None,
        next: at,
    })
}
