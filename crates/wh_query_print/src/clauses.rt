ghost use Rattle.def_grammar.specs.Canonical.{another_table_tokens, as_of_tokens, condition_column, condition_tail_tokens, condition_tokens, direction_tokens, from_tokens, key_tokens, listed_tokens, op_text, order_tokens, table_alias_tokens, table_tokens, test_tokens, bare, marked, named, column_tokens, literal_tokens, comma};
ghost use Rattle.std.specs.Prelude.{◌≡◌, ◌++◌, ◌∷◌, OnOk, [], codes, flat_map};

use crate::parts::push_signed;
use crate::pieces::{Pieces, ToTokens, push_more};
use std::alloc::AllocError;
use wh_base::queries::{ColName, RawCondition, RawJoin, RawKey, RawOrder, RawTable, RawTest};
use wh_base::seq::Seq;
use wh_base::tokens::TokenKind;
use wh_base::txt::Txt;
use wh_base::values::{Literal, Op};

impl ToTokens for RawTable {
    ghost tokens = { another_table_tokens };

    fn to_tokens<'a>(&'a self, out: &mut Pieces<'a>) -> Result<(), AllocError> {
        match &self.on {
            None => {
                out.push(TokenKind::Mark, b",")?;
                push_table(out, self)?;
                Ok(())
            }
            Some(join) => {
                out.push(TokenKind::Name, b"JOIN")?;
                push_table(out, self)?;
                out.push(TokenKind::Name, b"ON")?;
                push_join(out, join)?;
                Ok(())
            }
        }
    }
}

// The name of a table, and its alias behind it.
fn push_table<'a>(out: &mut Pieces<'a>, table: &'a RawTable) -> Result<(), AllocError>
    ensures { OnOk result (out.new ≡ out.old ++ table_tokens table.now) }
{
    out.push(TokenKind::Name, table.table.as_slice())?;
    push_table_alias(out, &table.alias)?;
    Ok(())
}

fn push_table_alias<'a>(out: &mut Pieces<'a>, alias: &'a Option<Txt>) -> Result<(), AllocError>
    ensures { OnOk result (out.new ≡ out.old ++ table_alias_tokens alias.now) }
{
    match alias {
        None => Ok(()),
        Some(name) => out.push(TokenKind::Name, name.as_slice()),
    }
}

// What stands after ON.
fn push_join<'a>(out: &mut Pieces<'a>, join: &'a RawJoin) -> Result<(), AllocError>
    ensures { OnOk result (out.new ≡ out.old
        ++ (column_tokens join.now.left ++ (marked (codes "=") ++ column_tokens join.now.right))) }
{
    join.left.to_tokens(out)?;
    out.push(TokenKind::Mark, b"=")?;
    join.right.to_tokens(out)?;
    Ok(())
}

/// The tables of FROM.
pub fn push_tables<'a>(out: &mut Pieces<'a>, tables: &'a [RawTable]) -> Result<(), AllocError>
    ensures { OnOk result (out.new ≡ out.old ++ from_tokens tables.now) }
{
    let Some((first, rest)) = tables.split_first() else {
        return Ok(());
    };
    push_table(out, first)?;
    push_all(out, rest)?;
    Ok(())
}

// The parts one after another.
fn push_all<'a, T: ToTokens>(out: &mut Pieces<'a>, parts: &'a [T]) -> Result<(), AllocError>
    ensures { OnOk result (out.new ≡ out.old ++ flat_map T.tokens parts.now) }
{
    for part in parts {
        part.to_tokens(out)?;
    }
    Ok(())
}

/// The parts, with this token between each two.
pub fn push_listed<'a, T: ToTokens>(
    out: &mut Pieces<'a>,
    kind: TokenKind,
    text: &'a [u8],
    parts: &'a [T],
) -> Result<(), AllocError>
    ensures { OnOk result (out.new
        ≡ out.old ++ listed_tokens (bare kind text.now ∷ []) T.tokens parts.now) }
{
    let Some((first, rest)) = parts.split_first() else {
        return Ok(());
    };
    first.to_tokens(out)?;
    push_more(out, kind, text, rest)?;
    Ok(())
}

fn op_text(op: Op) -> &'static str
    ensures { result.now ≡ op_text op }
{
    match op {
        Op::Eq => "=",
        Op::Ne => "<>",
        Op::Lt => "<",
        Op::Le => "<=",
        Op::Gt => ">",
        Op::Ge => ">=",
    }
}

// A comparison with a literal.
fn push_compared<'a>(out: &mut Pieces<'a>, op: Op, literal: &'a Literal) -> Result<(), AllocError>
    ensures { OnOk result (out.new ≡ out.old
        ++ (marked (op_text op) ++ literal_tokens literal.now)) }
{
    out.push(TokenKind::Mark, op_text(op).as_bytes())?;
    literal.to_tokens(out)?;
    Ok(())
}

// BETWEEN with its bounds.
fn push_between<'a>(
    out: &mut Pieces<'a>,
    low: &'a Literal,
    high: &'a Literal,
) -> Result<(), AllocError>
    ensures { OnOk result (out.new ≡ out.old ++ (named (codes "BETWEEN")
        ++ (literal_tokens low.now ++ (named (codes "AND") ++ literal_tokens high.now)))) }
{
    out.push(TokenKind::Name, b"BETWEEN")?;
    low.to_tokens(out)?;
    out.push(TokenKind::Name, b"AND")?;
    high.to_tokens(out)?;
    Ok(())
}

// IN with its literals.
fn push_one_of<'a>(out: &mut Pieces<'a>, literals: &'a [Literal]) -> Result<(), AllocError>
    ensures { OnOk result (out.new ≡ out.old ++ (named (codes "IN")
        ++ (marked (codes "(") ++ (listed_tokens comma literal_tokens literals.now ++ marked (codes ")"))))) }
{
    out.push(TokenKind::Name, b"IN")?;
    out.push(TokenKind::Mark, b"(")?;
    push_listed(out, TokenKind::Mark, b",", literals)?;
    out.push(TokenKind::Mark, b")")?;
    Ok(())
}

// What stands behind the column of a condition.
fn push_condition_tail<'a>(
    out: &mut Pieces<'a>,
    condition: &'a RawCondition,
) -> Result<(), AllocError>
    ensures { OnOk result (out.new ≡ out.old ++ condition_tail_tokens condition.now) }
{
    match condition {
        RawCondition::Compare(_, op, literal) => push_compared(out, *op, literal),
        RawCondition::Between(_, low, high) => push_between(out, low, high),
        RawCondition::Equal(_, other) => {
            out.push(TokenKind::Mark, b"=")?;
            other.to_tokens(out)?;
            Ok(())
        }
        RawCondition::OneOf(_, literals) => push_one_of(out, literals.as_slice()),
        RawCondition::IsNull(_) => {
            out.push(TokenKind::Name, b"IS")?;
            out.push(TokenKind::Name, b"NULL")?;
            Ok(())
        }
        RawCondition::NotNull(_) => {
            out.push(TokenKind::Name, b"IS")?;
            out.push(TokenKind::Name, b"NOT")?;
            out.push(TokenKind::Name, b"NULL")?;
            Ok(())
        }
    }
}

// The column that a condition is on.
fn condition_column(condition: &RawCondition) -> &ColName
    ensures { result.now ≡ condition_column condition.now }
{
    match condition {
        RawCondition::Compare(column, _, _) => column,
        RawCondition::Between(column, _, _) => column,
        RawCondition::Equal(column, _) => column,
        RawCondition::OneOf(column, _) => column,
        RawCondition::IsNull(column) => column,
        RawCondition::NotNull(column) => column,
    }
}

impl ToTokens for RawCondition {
    ghost tokens = { condition_tokens };

    fn to_tokens<'a>(&'a self, out: &mut Pieces<'a>) -> Result<(), AllocError> {
        condition_column(self).to_tokens(out)?;
        push_condition_tail(out, self)?;
        Ok(())
    }
}

impl ToTokens for RawTest {
    ghost tokens = { test_tokens };

    fn to_tokens<'a>(&'a self, out: &mut Pieces<'a>) -> Result<(), AllocError> {
        self.agg.to_tokens(out)?;
        push_compared(out, self.op, &self.literal)?;
        Ok(())
    }
}

impl ToTokens for RawOrder {
    ghost tokens = { order_tokens };

    fn to_tokens<'a>(&'a self, out: &mut Pieces<'a>) -> Result<(), AllocError> {
        match self {
            RawOrder::Position(number) => push_signed(out, *number),
            RawOrder::Column(column) => column.to_tokens(out),
            RawOrder::Computed(aggregate) => aggregate.to_tokens(out),
        }
    }
}

fn push_direction(out: &mut Pieces<'_>, descending: bool) -> Result<(), AllocError>
    ensures { OnOk result (out.new ≡ out.old ++ direction_tokens descending) }
{
    if descending {
        out.push(TokenKind::Name, b"DESC")?;
    }
    Ok(())
}

impl ToTokens for RawKey {
    ghost tokens = { key_tokens };

    fn to_tokens<'a>(&'a self, out: &mut Pieces<'a>) -> Result<(), AllocError> {
        self.what.to_tokens(out)?;
        push_direction(out, self.descending)?;
        Ok(())
    }
}

/// AS OF SCN with its number, and nothing where there is none.
pub fn push_as_of(out: &mut Pieces<'_>, scn: Option<i128>) -> Result<(), AllocError>
    ensures { OnOk result (out.new ≡ out.old ++ as_of_tokens scn) }
{
    let Some(number) = scn else {
        return Ok(());
    };
    out.push(TokenKind::Name, b"AS")?;
    out.push(TokenKind::Name, b"OF")?;
    out.push(TokenKind::Name, b"SCN")?;
    push_signed(out, number)?;
    Ok(())
}
