ghost use Rattle.def_grammar.specs.Canonical.{aggregate_tokens, alias_tokens, call_tokens, column_tokens, expression_tokens, item_tokens, literal_tokens, marked, named, part_tokens, qualifier_tokens, signed_tokens, what_tokens};
ghost use Rattle.std.specs.Prelude.{◌≡◌, ◌++◌, OnOk, codes};

use crate::pieces::{Pieces, ToTokens};
use std::alloc::AllocError;
use wh_base::day::Day;
use wh_base::queries::{ColName, NamePart, RawAgg, RawExpr, RawItem, RawWhat};
use wh_base::tokens::TokenKind;
use wh_base::txt::Txt;
use wh_base::values::Literal;
use wh_date::day_bytes;

/// A number with its sign.
pub fn push_signed(out: &mut Pieces<'_>, number: i128) -> Result<(), AllocError>
    ensures { OnOk result (out.new ≡ out.old ++ signed_tokens number) }
{
    if number < 0 {
        out.push(TokenKind::Mark, b"-")?;
    }
    out.push_number(number.unsigned_abs())?;
    Ok(())
}

// DATE and the text of a day.
fn push_date(out: &mut Pieces<'_>, day: Day) -> Result<(), AllocError>
    ensures { OnOk result (out.new ≡ out.old ++ literal_tokens (Literal.Dated day)) }
{
    out.push(TokenKind::Name, b"DATE")?;
    out.push_day(day_bytes(day))?;
    Ok(())
}

impl ToTokens for Literal {
    ghost tokens = { literal_tokens };

    fn to_tokens<'a>(&'a self, out: &mut Pieces<'a>) -> Result<(), AllocError> {
        match self {
            Literal::Number(number) => push_signed(out, number.get()),
            Literal::Quoted(text) => out.push(TokenKind::Text, text.as_slice()),
            Literal::Dated(day) => push_date(out, *day),
        }
    }
}

fn push_qualifier<'a>(out: &mut Pieces<'a>, qualifier: &'a Option<Txt>) -> Result<(), AllocError>
    ensures { OnOk result (out.new ≡ out.old ++ qualifier_tokens qualifier.now) }
{
    match qualifier {
        None => Ok(()),
        Some(name) => {
            out.push(TokenKind::Name, name.as_slice())?;
            out.push(TokenKind::Mark, b".")?;
            Ok(())
        }
    }
}

fn push_rowid<'a>(out: &mut Pieces<'a>, qualifier: &'a Option<Txt>) -> Result<(), AllocError>
    ensures { OnOk result (out.new ≡ out.old ++ part_tokens NamePart.RowIdName (qualifier_tokens qualifier.now)) }
{
    push_qualifier(out, qualifier)?;
    out.push(TokenKind::Name, b"ROWID")?;
    Ok(())
}

// The name of a package's function, with its opening parenthesis.
fn push_member<'a>(out: &mut Pieces<'a>, owner: &'a [u8], name: &'a [u8]) -> Result<(), AllocError>
    ensures { OnOk result (out.new ≡ out.old
        ++ (named owner.now ++ (marked (codes ".") ++ (named name.now ++ marked (codes "("))))) }
{
    out.push(TokenKind::Name, owner)?;
    out.push(TokenKind::Mark, b".")?;
    push_open(out, name)?;
    Ok(())
}

// A call of a package's function on a ROWID.
fn push_rowid_call<'a>(
    out: &mut Pieces<'a>,
    owner: &'a [u8],
    name: &'a [u8],
    qualifier: &'a Option<Txt>,
) -> Result<(), AllocError>
    ensures { OnOk result (out.new ≡ out.old
        ++ (named owner.now ++ (marked (codes ".") ++ (named name.now ++ (marked (codes "(")
        ++ (qualifier_tokens qualifier.now ++ (named (codes "ROWID") ++ marked (codes ")")))))))) }
{
    push_member(out, owner, name)?;
    push_rowid(out, qualifier)?;
    out.push(TokenKind::Mark, b")")?;
    Ok(())
}

fn push_marker<'a>(out: &mut Pieces<'a>, qualifier: &'a Option<Txt>) -> Result<(), AllocError>
    ensures { OnOk result (out.new
        ≡ out.old ++ part_tokens NamePart.MarkName (qualifier_tokens qualifier.now)) }
{
    push_rowid_call(out, b"DBMS_MVIEW", b"PMARKER", qualifier)?;
    Ok(())
}

impl ToTokens for ColName {
    ghost tokens = { column_tokens };

    fn to_tokens<'a>(&'a self, out: &mut Pieces<'a>) -> Result<(), AllocError> {
        match &self.part {
            NamePart::Plain(name) => {
                push_qualifier(out, &self.qualifier)?;
                out.push(TokenKind::Name, name.as_slice())?;
                Ok(())
            }
            NamePart::RowIdName => push_rowid(out, &self.qualifier),
            NamePart::MarkName => push_marker(out, &self.qualifier),
        }
    }
}

// The expression of a product.
fn push_product<'a>(
    out: &mut Pieces<'a>,
    left: &'a ColName,
    right: &'a ColName,
) -> Result<(), AllocError>
    ensures { OnOk result (out.new
        ≡ out.old ++ expression_tokens (RawExpr.Times left.now right.now)) }
{
    left.to_tokens(out)?;
    out.push(TokenKind::Mark, b"*")?;
    right.to_tokens(out)?;
    Ok(())
}

impl ToTokens for RawExpr {
    ghost tokens = { expression_tokens };

    fn to_tokens<'a>(&'a self, out: &mut Pieces<'a>) -> Result<(), AllocError> {
        match self {
            RawExpr::Column(column) => column.to_tokens(out),
            RawExpr::Times(left, right) => push_product(out, left, right),
            RawExpr::Constant(number) => push_signed(out, *number),
        }
    }
}

// A keyword with its opening parenthesis.
fn push_open<'a>(out: &mut Pieces<'a>, word: &'a [u8]) -> Result<(), AllocError>
    ensures { OnOk result (out.new ≡ out.old ++ (named word.now ++ marked (codes "("))) }
{
    out.push(TokenKind::Name, word)?;
    out.push(TokenKind::Mark, b"(")?;
    Ok(())
}

// An aggregate of this keyword.
fn push_call<'a>(out: &mut Pieces<'a>, word: &'a [u8], inner: &'a RawExpr) -> Result<(), AllocError>
    ensures { OnOk result (out.new
        ≡ out.old ++ call_tokens word.now (expression_tokens inner.now)) }
{
    push_open(out, word)?;
    inner.to_tokens(out)?;
    out.push(TokenKind::Mark, b")")?;
    Ok(())
}

fn push_count_rows(out: &mut Pieces<'_>) -> Result<(), AllocError>
    ensures { OnOk result (out.new ≡ out.old ++ aggregate_tokens RawAgg.CountRows) }
{
    push_open(out, b"COUNT")?;
    out.push(TokenKind::Mark, b"*")?;
    out.push(TokenKind::Mark, b")")?;
    Ok(())
}

impl ToTokens for RawAgg {
    ghost tokens = { aggregate_tokens };

    fn to_tokens<'a>(&'a self, out: &mut Pieces<'a>) -> Result<(), AllocError> {
        match self {
            RawAgg::CountRows => push_count_rows(out),
            RawAgg::CountOf(inner) => push_call(out, b"COUNT", inner),
            RawAgg::SumOf(inner) => push_call(out, b"SUM", inner),
            RawAgg::AvgOf(inner) => push_call(out, b"AVG", inner),
            RawAgg::MinOf(inner) => push_call(out, b"MIN", inner),
            RawAgg::MaxOf(inner) => push_call(out, b"MAX", inner),
        }
    }
}

impl ToTokens for RawWhat {
    ghost tokens = { what_tokens };

    fn to_tokens<'a>(&'a self, out: &mut Pieces<'a>) -> Result<(), AllocError> {
        match self {
            RawWhat::Plain(column) => column.to_tokens(out),
            RawWhat::Computed(aggregate) => aggregate.to_tokens(out),
        }
    }
}

fn push_alias<'a>(out: &mut Pieces<'a>, alias: &'a Option<Txt>) -> Result<(), AllocError>
    ensures { OnOk result (out.new ≡ out.old ++ alias_tokens alias.now) }
{
    match alias {
        None => Ok(()),
        Some(name) => {
            out.push(TokenKind::Name, b"AS")?;
            out.push(TokenKind::Name, name.as_slice())?;
            Ok(())
        }
    }
}

impl ToTokens for RawItem {
    ghost tokens = { item_tokens };

    fn to_tokens<'a>(&'a self, out: &mut Pieces<'a>) -> Result<(), AllocError> {
        self.what.to_tokens(out)?;
        push_alias(out, &self.alias)?;
        Ok(())
    }
}
