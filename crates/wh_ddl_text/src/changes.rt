ghost use Rattle.def_grammar.specs.Forms.{delete, insert, is_plain_name, own_conditions, row_value, set_column, update};
ghost use Rattle.def_grammar.specs.Reading.{◌>>◌, mapped, mark, number};
ghost use Rattle.def_resolve.specs.Names.{condition_names};
ghost use Rattle.std.specs.List.{list_all};
ghost use Rattle.std.specs.Prelude.{◌≡◌, codes, flat_map, pos};
ghost use Rattle.wh_base.specs.declared.statements.NewValue.TheVariants.{Given};
ghost use Rattle.wh_ddl_text.specs.Pieces.{moved_value};

use crate::words::take_words;
use wh_base::queries::{ColName, NamePart, RawCondition};
use wh_base::seq::Seq;
use wh_base::statements::{
    ChangeStatement, DeleteRows, InsertRows, NewValue, SetColumn, Statement, UpdateRows,
};
use wh_query_text::parser::{ParseFault, Parser};
use wh_query_text::query::clauses::Where;
use wh_query_text::query::pieces::skip_word;
use wh_query_text::rule::{Bracketed, Either, Listed, Maybe, Rule};
use wh_query_text::rules::{Negative, PlainName, RowValue};

/// INSERT.
pub struct InsertRule;

impl Rule for InsertRule {
    type Output = Statement;

    ghost reads = { insert };

    fn read(parser: &mut Parser<'_>) -> Result<Statement, ParseFault> {
        take_words(parser, ["INSERT", "INTO"].as_slice())?;
        let table = parser.name()?;
        let columns = Maybe::<Bracketed<Listed<PlainName>>>::read(parser)?;
        parser.word(b"VALUES")?;
        let rows = Listed::<Bracketed<Listed<RowValue>>>::read(parser)?;
        Ok(Statement::Change(ChangeStatement::Insert(InsertRows {
            table,
            columns,
            rows,
        })))
    }
}

/// A value that UPDATE sets as it is written.
pub struct GivenValue;

impl Rule for GivenValue {
    type Output = NewValue;

    ghost reads = { mapped Given row_value };

    fn read(parser: &mut Parser<'_>) -> Result<NewValue, ParseFault> {
        let value = RowValue::read(parser)?;
        Ok(NewValue::Given(value))
    }
}

/// A plus and a number.
pub struct Positive;

impl Rule for Positive {
    type Output = i128;

    ghost reads = { mark (codes "+") >> mapped pos number };

    fn read(parser: &mut Parser<'_>) -> Result<i128, ParseFault> {
        parser.mark(b"+")?;
        parser.integer()
    }
}

/// A column and what is added to its old value.
pub struct MovedValue;

impl Rule for MovedValue {
    type Output = NewValue;

    ghost reads = { moved_value };

    fn read(parser: &mut Parser<'_>) -> Result<NewValue, ParseFault> {
        let column = parser.name()?;
        let by = Either::<Positive, Negative>::read(parser)?;
        Ok(NewValue::Moved(column, by))
    }
}

/// What UPDATE sets a column to.
pub type AnyValue = Either<GivenValue, MovedValue>;

/// A column that UPDATE sets.
pub struct SetRule;

impl Rule for SetRule {
    type Output = SetColumn;

    ghost reads = { set_column };

    fn read(parser: &mut Parser<'_>) -> Result<SetColumn, ParseFault> {
        let column = parser.name()?;
        parser.mark(b"=")?;
        let value = AnyValue::read(parser)?;
        Ok(SetColumn { column, value })
    }
}

fn is_plain_name(column: &ColName) -> bool
    ensures { result ≡ is_plain_name column.now }
{
    match (&column.qualifier, &column.part) {
        (None, NamePart::Plain(_)) => true,
        _ => false,
    }
}

// Whether each column of a condition is a name without a qualifier.
fn has_plain_names(condition: &RawCondition) -> bool
    ensures { result ≡ list_all is_plain_name (condition_names condition.now) }
{
    match condition {
        RawCondition::Compare(column, _, _) => is_plain_name(column),
        RawCondition::Between(column, _, _) => is_plain_name(column),
        RawCondition::Equal(column, other) => is_plain_name(column) && is_plain_name(other),
        RawCondition::OneOf(column, _) => is_plain_name(column),
        RawCondition::IsNull(column) => is_plain_name(column),
        RawCondition::NotNull(column) => is_plain_name(column),
    }
}

#[tactic(auto, using(crate::proofs::PlainNames::plain))]
fn all_have_plain_names(conditions: &[RawCondition]) -> bool
    ensures { result ≡ list_all is_plain_name (flat_map condition_names conditions.now) }
{
    for condition in conditions {
        if !has_plain_names(condition) {
            return false;
        }
    }
    true
}

/// WHERE, which may be left out, with names without qualifiers alone.
pub struct OwnWhere;

impl Rule for OwnWhere {
    type Output = Seq<RawCondition>;

    ghost reads = { own_conditions };

    fn read(parser: &mut Parser<'_>) -> Result<Seq<RawCondition>, ParseFault> {
        let conditions = Where::read(parser)?;
        if all_have_plain_names(conditions.as_slice()) {
            Ok(conditions)
        } else {
            Err(ParseFault::Syntax)
        }
    }
}

/// UPDATE.
pub struct UpdateRule;

impl Rule for UpdateRule {
    type Output = Statement;

    ghost reads = { update };

    fn read(parser: &mut Parser<'_>) -> Result<Statement, ParseFault> {
        parser.word(b"UPDATE")?;
        let table = parser.name()?;
        parser.word(b"SET")?;
        let sets = Listed::<SetRule>::read(parser)?;
        let conditions = OwnWhere::read(parser)?;
        Ok(Statement::Change(ChangeStatement::Update(UpdateRows {
            table,
            sets,
            conditions,
        })))
    }
}

/// DELETE.
pub struct DeleteRule;

impl Rule for DeleteRule {
    type Output = Statement;

    ghost reads = { delete };

    fn read(parser: &mut Parser<'_>) -> Result<Statement, ParseFault> {
        parser.word(b"DELETE")?;
        skip_word(parser, b"FROM");
        let table = parser.name()?;
        let conditions = OwnWhere::read(parser)?;
        Ok(Statement::Change(ChangeStatement::Delete(DeleteRows { table, conditions })))
    }
}

/// A statement that changes rows.
pub type Change = Either<InsertRule, Either<UpdateRule, DeleteRule>>;
