ghost use Rattle.def_grammar.specs.Canonical.{group_tokens, having_tokens, order_by_tokens, query_text, query_tokens, where_tokens};
ghost use Rattle.std.specs.Prelude.{◌≡◌, ◌++◌, IfOk, OnOk};
ghost use Rattle.def_grammar.specs.Written.{IsWritten, ReadsAs};
ghost use Rattle.wh_query_print.specs.Pieces.{head_tokens, tail_tokens};

use crate::clauses::{push_as_of, push_listed, push_tables};
use crate::layout::push_laid;
use crate::pieces::{Pieces, ToTokens};
use std::alloc::{AllocError, Global};
use wh_base::queries::{ColName, RawCondition, RawKey, RawQuery, RawTest};
use wh_base::tokens::TokenKind;
use wh_base::txt::Txt;

fn push_where<'a>(out: &mut Pieces<'a>, conditions: &'a [RawCondition]) -> Result<(), AllocError>
    ensures { OnOk result (out.new ≡ out.old ++ where_tokens conditions.now) }
{
    if conditions.is_empty() {
        return Ok(());
    }
    out.push(TokenKind::Name, b"WHERE")?;
    push_listed(out, TokenKind::Name, b"AND", conditions)?;
    Ok(())
}

fn push_groups<'a>(out: &mut Pieces<'a>, columns: &'a [ColName]) -> Result<(), AllocError>
    ensures { OnOk result (out.new ≡ out.old ++ group_tokens columns.now) }
{
    if columns.is_empty() {
        return Ok(());
    }
    out.push(TokenKind::Name, b"GROUP")?;
    out.push(TokenKind::Name, b"BY")?;
    push_listed(out, TokenKind::Mark, b",", columns)?;
    Ok(())
}

fn push_having<'a>(out: &mut Pieces<'a>, tests: &'a [RawTest]) -> Result<(), AllocError>
    ensures { OnOk result (out.new ≡ out.old ++ having_tokens tests.now) }
{
    if tests.is_empty() {
        return Ok(());
    }
    out.push(TokenKind::Name, b"HAVING")?;
    push_listed(out, TokenKind::Name, b"AND", tests)?;
    Ok(())
}

fn push_order<'a>(out: &mut Pieces<'a>, keys: &'a [RawKey]) -> Result<(), AllocError>
    ensures { OnOk result (out.new ≡ out.old ++ order_by_tokens keys.now) }
{
    if keys.is_empty() {
        return Ok(());
    }
    out.push(TokenKind::Name, b"ORDER")?;
    out.push(TokenKind::Name, b"BY")?;
    push_listed(out, TokenKind::Mark, b",", keys)?;
    Ok(())
}

// SELECT, FROM and AS OF.
fn push_head<'a>(out: &mut Pieces<'a>, query: &'a RawQuery) -> Result<(), AllocError>
    ensures { OnOk result (out.new ≡ out.old ++ head_tokens query.now) }
{
    out.push(TokenKind::Name, b"SELECT")?;
    push_listed(out, TokenKind::Mark, b",", query.items.as_slice())?;
    out.push(TokenKind::Name, b"FROM")?;
    push_tables(out, query.tables.as_slice())?;
    push_as_of(out, query.as_of)?;
    Ok(())
}

// WHERE and what follows it.
fn push_tail<'a>(out: &mut Pieces<'a>, query: &'a RawQuery) -> Result<(), AllocError>
    ensures { OnOk result (out.new ≡ out.old ++ tail_tokens query.now) }
{
    push_where(out, query.conditions.as_slice())?;
    push_groups(out, query.groups.as_slice())?;
    push_having(out, query.having.as_slice())?;
    push_order(out, query.order.as_slice())?;
    Ok(())
}

impl ToTokens for RawQuery {
    ghost tokens = { query_tokens };

    fn to_tokens<'a>(&'a self, out: &mut Pieces<'a>) -> Result<(), AllocError> {
        push_head(out, self)?;
        push_tail(out, self)?;
        Ok(())
    }
}

/// The canonical text of a query: as SQL is usually written, on one line and in upper case, with one space or none
/// between two tokens, each alias of an item behind AS, a comparison as `=`, `<>`, `<`, `<=`, `>` or `>=`, and what may
/// be left out left out (INNER, ASC, brackets after ON). Quotes within a text are doubled. The form is this project's own.
///
/// The text of a query that can be written reads as that query, and no other query has it.
///
/// An error says that memory ran out or that the text has 2^32 bytes or more.
#[tactic(auto, using(crate::proofs::Back::laws))]
pub fn query_text(alloc: Global, query: &RawQuery) -> Result<Txt, AllocError>
    ensures is { IfOk result (λ text. text ≡ query_text query.now) }
    ensures reads_back { IfOk result (λ text. IsWritten query.now → ReadsAs text query.now) }
{
    written(alloc, query)
}

#[tactic(auto, unfolding(def_grammar::specs::Canonical::query_text))]
fn written(alloc: Global, query: &RawQuery) -> Result<Txt, AllocError>
    ensures { IfOk result (λ text. text ≡ query_text query.now) }
{
    let mut pieces = Pieces::new(alloc);
    query.to_tokens(&mut pieces)?;
    let mut text = Vec::new(alloc);
    push_laid(&mut text, pieces.as_slice())?;
    Txt::from_vec(text)
}
