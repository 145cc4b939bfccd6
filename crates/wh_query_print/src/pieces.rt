ghost use Rattle.def_grammar.specs.Canonical.{bare, more_tokens, numbered};
ghost use Rattle.std.specs.Prelude.{◌≡◌, ◌++◌, ◌∷◌, List, OnOk, [], map};
ghost use Rattle.wh_base.specs.declared.tokens.Token.{Token};
ghost use Rattle.wh_query_print.specs.Pieces.{piece_token};

use std::alloc::{AllocError, Global};
use std::marker::Model;
use wh_base::tokens::TokenKind;

/// A token of a query, which lends its text from it, but for a number and the text of a day.
#[derive(Clone, Copy)]
pub enum Piece<'a> {
    Spelled(TokenKind, &'a [u8]),
    Number(u128),
    Day([u8; 10]),
}

/// The tokens of a query in the order in which they are written, which contracts see as tokens of no place.
#[derive(Drop)]
pub struct Pieces<'a> {
    items: Vec<Piece<'a>>,
}

impl<'a> Model for Pieces<'a> {
    ghost use Rattle.std.specs.Prelude.{List, map};
    ghost use Rattle.std.specs.Coded.{coded_list};
    ghost use Rattle.wh_base.specs.declared.tokens.Token.{Token};
    ghost use Rattle.wh_base.specs.contracts.tokens.Token.{the_row};
    ghost use Rattle.wh_query_print.specs.Pieces.{piece_token};

    ghost Value = { List Token };

    ghost coded = { coded_list the_row.coded };

    ghost view = { λ p. map piece_token p.items.items };
}

impl<'a> Pieces<'a> {
    /// No tokens. Takes no memory.
    pub fn new(alloc: Global) -> Pieces<'a>
        ensures { result ≡ [] }
    {
        Pieces {
            items: Vec::new(alloc),
        }
    }

    /// The tokens as a slice.
    pub fn as_slice(&self) -> &[Piece<'a>]
        ensures { map piece_token result.now ≡ self.now }
    {
        self.items.as_slice()
    }

    /// One more token, with its text as tokens have it. An error says that memory ran out.
    pub fn push(&mut self, kind: TokenKind, text: &'a [u8]) -> Result<(), AllocError>
        ensures { OnOk result (self.new ≡ self.old ++ bare kind text.now ∷ []) }
    {
        self.items.push(Piece::Spelled(kind, text))?;
        Ok(())
    }

    /// One more number. An error says that memory ran out.
    pub fn push_number(&mut self, number: u128) -> Result<(), AllocError>
        ensures { OnOk result (self.new ≡ self.old ++ numbered number) }
    {
        self.items.push(Piece::Number(number))?;
        Ok(())
    }

    /// One more text, as long as that of a day. An error says that memory ran out.
    pub fn push_day(&mut self, text: [u8; 10]) -> Result<(), AllocError>
        ensures { OnOk result (self.new ≡ self.old ++ bare TokenKind.Text text ∷ []) }
    {
        self.items.push(Piece::Day(text))?;
        Ok(())
    }
}

/// A part of a query that is written by tokens.
pub trait ToTokens {
    ghost tokens: { Self → List Token };

    /// Its tokens at the end of the others. An error says that memory ran out.
    fn to_tokens<'a>(&'a self, out: &mut Pieces<'a>) -> Result<(), AllocError>
        ensures { OnOk result (out.new ≡ out.old ++ tokens self.now) };
}

/// The parts, each behind this token.
pub fn push_more<'a, T: ToTokens>(
    out: &mut Pieces<'a>,
    kind: TokenKind,
    text: &'a [u8],
    parts: &'a [T],
) -> Result<(), AllocError>
    ensures { OnOk result (out.new
        ≡ out.old ++ more_tokens (bare kind text.now ∷ []) T.tokens parts.now) }
{
    for part in parts {
        out.push(kind, text)?;
        part.to_tokens(out)?;
    }
    Ok(())
}
