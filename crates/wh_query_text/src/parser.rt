ghost use Rattle.std.specs.List.{list_all, list_any};
ghost use Rattle.std.specs.Prelude.{◌≡◌, ◌-◌, ◌<◌, ◌^◌, IfErr, IfOk, List, length, nat_abs, pos, take, true, unwrap_or};
ghost use Rattle.def_grammar.specs.Reading.{is_name, is_token, mapped, mark, name, number, quoted, reserved, token_where, word};
ghost use Rattle.wh_base.specs.Lists.{has_text, same_text};
ghost use Rattle.wh_base.specs.Values.{digits_number};
ghost use Rattle.wh_lex.specs.Lex.{number_fits, token_fits};
ghost use Rattle.wh_query_text.specs.Parse.{Gives, Takes};
ghost use Rattle.wh_query_text.specs.Pieces.{Makes};

use std::alloc::{AllocError, Global};
use std::marker::Model;
use wh_base::copied::Copied;
use wh_base::seq::Seq;
use wh_base::tokens::{Token, TokenKind};
use wh_base::txt::Txt;

/// Why no rule of the grammar was read.
#[derive(Clone, Copy, Debug, PartialEq, Eq)]
pub enum ParseFault {
    /// The tokens aren't what the rule reads.
    Syntax,
    /// Memory ran out.
    Memory,
}

/// A place in a list of tokens, which contracts see as the tokens that are left.
#[derive(Drop)]
pub struct Parser<'a> {
    alloc: Global,
    rest: &'a [Token],
}

impl<'a> Model for Parser<'a> {
    ghost use Rattle.std.specs.List.{list_all};
    ghost use Rattle.std.specs.Prelude.{◌≡◌, List, true};
    ghost use Rattle.std.specs.Coded.{coded_list};
    ghost use Rattle.wh_lex.specs.Lex.{token_fits};
    ghost use Rattle.wh_base.specs.declared.tokens.Token.{Token};
    ghost use Rattle.wh_base.specs.contracts.tokens.Token.{the_row};

    ghost Value = { List Token };

    ghost coded = { coded_list the_row.coded };

    ghost view = { λ p. p.rest.now };

    ghost invariant = { λ p. list_all token_fits p.rest.now ≡ true };
}

impl<'a> Parser<'a> {
    /// At the first of these tokens, each number of which is below 10 ^ 38.
    pub fn new(alloc: Global, tokens: &'a [Token]) -> Parser<'a>
        requires { list_all token_fits tokens.now ≡ true }
        ensures { result ≡ tokens.now }
    {
        Parser {
            alloc,
            rest: tokens,
        }
    }

    /// The allocator that texts and lists are taken from.
    pub fn alloc(&self) -> Global {
        self.alloc
    }

    /// How many tokens are left.
    pub fn len(&self) -> usize
        ensures { result ≡ length self.now }
    {
        self.rest.len()
    }

    /// The same place again, to come back to.
    pub fn place(&self) -> Parser<'a>
        ensures { result ≡ self.now }
    {
        Parser {
            alloc: self.alloc,
            rest: self.rest,
        }
    }

    /// Takes this keyword where it is next.
    pub fn word(&mut self, text: &[u8]) -> Result<(), ParseFault>
        ensures { Takes result self.old self.new (word text.now self.old) }
    {
        self.token(TokenKind::Name, text)
    }

    /// Takes this mark where it is next.
    pub fn mark(&mut self, text: &[u8]) -> Result<(), ParseFault>
        ensures { Takes result self.old self.new (mark text.now self.old) }
    {
        self.token(TokenKind::Mark, text)
    }

    fn token(&mut self, kind: TokenKind, text: &[u8]) -> Result<(), ParseFault>
        ensures { Takes result self.old self.new (token_where (is_token kind text.now) self.old) }
    {
        match self.rest.first() {
            Some(token) if token.kind == kind && token.text.as_slice() == text => {
                self.rest = &self.rest[1..];
                Ok(())
            }
            _ => Err(ParseFault::Syntax),
        }
    }

    /// A name, which is no reserved word.
    pub fn name(&mut self) -> Result<Txt, ParseFault>
        ensures { Gives result self.new (name self.old) }
    {
        match self.rest.first() {
            Some(token) if token.kind == TokenKind::Name && !is_reserved(token.text.as_slice()) =>
                self.text(),
            _ => Err(ParseFault::Syntax),
        }
    }

    /// A number of 1 to 38 digits.
    pub fn number(&mut self) -> Result<u128, ParseFault>
        ensures gives { Gives result self.new (number self.old) }
        ensures small { IfOk result (λ n. n < 10 ^ 38) }
        ensures fault { IfErr result (λ e. e ≡ ParseFault.Syntax) }
    {
        match self.rest.first() {
            Some(token) if token.kind == TokenKind::Number => {
                let number = number_of(token.text.as_slice());
                self.rest = &self.rest[1..];
                Ok(number)
            }
            _ => Err(ParseFault::Syntax),
        }
    }

    /// A number of 1 to 38 digits, as one with a sign.
    pub fn integer(&mut self) -> Result<i128, ParseFault>
        ensures gives { Gives result self.new (mapped pos number self.old) }
        ensures small { IfOk result (λ n. nat_abs n < 10 ^ 38) }
        ensures fault { IfErr result (λ e. e ≡ ParseFault.Syntax) }
    {
        let n = self.number()?;
        Ok(n as i128)
    }

    /// A text in quotes, without them.
    pub fn quoted(&mut self) -> Result<Txt, ParseFault>
        ensures { Gives result self.new (quoted self.old) }
    {
        match self.rest.first() {
            Some(token) if token.kind == TokenKind::Text => self.text(),
            _ => Err(ParseFault::Syntax),
        }
    }

    /// The tokens between a place and this one. The one fault is want of memory.
    pub fn tokens_since(&self, place: &Parser<'_>) -> Result<Seq<Token>, ParseFault>
        ensures { Makes result (take (length place.now - length self.now) place.now) }
    {
        let count = place.rest.len().saturating_sub(self.rest.len());
        match copied(self.alloc, &place.rest[..count]) {
            Ok(tokens) => Ok(tokens),
            Err(_) => Err(ParseFault::Memory),
        }
    }

    // The text of the next token.
    fn text(&mut self) -> Result<Txt, ParseFault>
        requires { 0 < length self.old }
        ensures { Gives result self.new (mapped (λ t. t.text) (token_where (λ t. true)) self.old) }
    {
        let Ok(text) = self.rest[0].text.copy(self.alloc) else {
            return Err(ParseFault::Memory);
        };
        self.rest = &self.rest[1..];
        Ok(text)
    }
}

// The same tokens again, in no more memory than they take. An error says that memory ran out.
fn copied(alloc: Global, tokens: &[Token]) -> Result<Seq<Token>, AllocError>
    ensures { IfOk result (λ copy. copy ≡ tokens.now) }
{
    let mut copy = Vec::with_capacity(alloc, tokens.len())?;
    for token in tokens {
        copy.push(token.copied(alloc)?)?;
    }
    Seq::from_vec(copy)
}

/// Whether a word is never a name.
fn is_reserved(text: &[u8]) -> bool
    ensures { result ≡ has_text reserved text.now }
{
    is_one_of(text, RESERVED.as_slice())
}

fn is_one_of(text: &[u8], words: &[&str]) -> bool
    ensures { result ≡ list_any (λ w. same_text text.now w.now) words.now }
{
    for word in words {
        if text == word.as_bytes() {
            return true;
        }
    }
    false
}

/// The words that are never names.
const RESERVED: [&str; 43] = [
    "SELECT",
    "FROM",
    "WHERE",
    "GROUP",
    "BY",
    "HAVING",
    "ORDER",
    "JOIN",
    "INNER",
    "ON",
    "AND",
    "AS",
    "OF",
    "SCN",
    "IN",
    "IS",
    "NOT",
    "NULL",
    "BETWEEN",
    "ASC",
    "DESC",
    "ROWID",
    "COUNT",
    "SUM",
    "AVG",
    "MIN",
    "MAX",
    "BEGIN",
    "COMMIT",
    "INSERT",
    "INTO",
    "VALUES",
    "UPDATE",
    "SET",
    "DELETE",
    "CREATE",
    "ALTER",
    "DROP",
    "TABLE",
    "LEVEL",
    "HIERARCHY",
    "ATTRIBUTE",
    "DATE",
];

/// The number that digits stand for.
fn number_of(digits: &[u8]) -> u128
    requires { number_fits TokenKind.Number digits.now ≡ true }
    ensures is { result ≡ unwrap_or (digits_number digits.now) 0 }
    ensures small { result < 10 ^ 38 }
{
    let mut n = 0u128;
    for digit in digits {
        n = n * 10 + u128::from(*digit - b'0');
    }
    n
}
