ghost use Rattle.def_grammar.specs.Query.{condition, operator};
ghost use Rattle.std.specs.Prelude.{◌≡◌};
ghost use Rattle.wh_query_text.specs.Tail.{between_tail, compare_tail, condition_with, equal_tail, not_null_tail, null_tail, one_of_tail};

use crate::parser::{ParseFault, Parser};
use crate::query::columns::Column;
use crate::rule::{Bracketed, Either, Listed, Rule};
use crate::rules::AnyLiteral;
use wh_base::queries::{ColName, RawCondition};
use wh_base::seq::Seq;
use wh_base::values::{Literal, Op};

/// A comparison.
pub struct Operator;

impl Rule for Operator {
    type Output = Op;

    ghost reads = { operator };

    fn read(parser: &mut Parser<'_>) -> Result<Op, ParseFault> {
        if parser.mark(b"=").is_ok() {
            return Ok(Op::Eq);
        }
        if parser.mark(b"<>").is_ok() || parser.mark(b"!=").is_ok() {
            return Ok(Op::Ne);
        }
        if parser.mark(b"<=").is_ok() {
            return Ok(Op::Le);
        }
        if parser.mark(b"<").is_ok() {
            return Ok(Op::Lt);
        }
        if parser.mark(b">=").is_ok() {
            return Ok(Op::Ge);
        }
        parser.mark(b">")?;
        Ok(Op::Gt)
    }
}

/// What stands behind the column of a condition.
#[derive(Drop)]
pub enum ConditionTail {
    Compare(Op, Literal),
    Between(Literal, Literal),
    Equal(ColName),
    OneOf(Seq<Literal>),
    IsNull,
    NotNull,
}

/// A comparison with a literal.
pub struct CompareTail;

impl Rule for CompareTail {
    type Output = ConditionTail;

    ghost reads = { compare_tail };

    fn read(parser: &mut Parser<'_>) -> Result<ConditionTail, ParseFault> {
        let op = Operator::read(parser)?;
        let literal = AnyLiteral::read(parser)?;
        Ok(ConditionTail::Compare(op, literal))
    }
}

/// BETWEEN two literals.
pub struct BetweenTail;

impl Rule for BetweenTail {
    type Output = ConditionTail;

    ghost reads = { between_tail };

    fn read(parser: &mut Parser<'_>) -> Result<ConditionTail, ParseFault> {
        parser.word(b"BETWEEN")?;
        let low = AnyLiteral::read(parser)?;
        parser.word(b"AND")?;
        let high = AnyLiteral::read(parser)?;
        Ok(ConditionTail::Between(low, high))
    }
}

/// Equal to another column.
pub struct EqualTail;

impl Rule for EqualTail {
    type Output = ConditionTail;

    ghost reads = { equal_tail };

    fn read(parser: &mut Parser<'_>) -> Result<ConditionTail, ParseFault> {
        parser.mark(b"=")?;
        let column = Column::read(parser)?;
        Ok(ConditionTail::Equal(column))
    }
}

/// IN a list of literals.
pub struct OneOfTail;

impl Rule for OneOfTail {
    type Output = ConditionTail;

    ghost reads = { one_of_tail };

    fn read(parser: &mut Parser<'_>) -> Result<ConditionTail, ParseFault> {
        parser.word(b"IN")?;
        let literals = Bracketed::<Listed<AnyLiteral>>::read(parser)?;
        Ok(ConditionTail::OneOf(literals))
    }
}

/// IS NULL.
pub struct NullTail;

impl Rule for NullTail {
    type Output = ConditionTail;

    ghost reads = { null_tail };

    fn read(parser: &mut Parser<'_>) -> Result<ConditionTail, ParseFault> {
        parser.word(b"IS")?;
        parser.word(b"NULL")?;
        Ok(ConditionTail::IsNull)
    }
}

/// IS NOT NULL.
pub struct NotNullTail;

impl Rule for NotNullTail {
    type Output = ConditionTail;

    ghost reads = { not_null_tail };

    fn read(parser: &mut Parser<'_>) -> Result<ConditionTail, ParseFault> {
        parser.word(b"IS")?;
        parser.word(b"NOT")?;
        parser.word(b"NULL")?;
        Ok(ConditionTail::NotNull)
    }
}

/// IS NULL or IS NOT NULL.
pub type NullTest = Either<NullTail, NotNullTail>;

/// What may stand behind the column of a condition.
pub type AnyTail = Either<
    CompareTail,
    Either<BetweenTail, Either<EqualTail, Either<OneOfTail, NullTest>>>,
>;

fn condition_with(column: ColName, tail: ConditionTail) -> RawCondition
    ensures { result ≡ condition_with column tail }
{
    match tail {
        ConditionTail::Compare(op, literal) => RawCondition::Compare(column, op, literal),
        ConditionTail::Between(low, high) => RawCondition::Between(column, low, high),
        ConditionTail::Equal(other) => RawCondition::Equal(column, other),
        ConditionTail::OneOf(literals) => RawCondition::OneOf(column, literals),
        ConditionTail::IsNull => RawCondition::IsNull(column),
        ConditionTail::NotNull => RawCondition::NotNull(column),
    }
}

/// A condition on a column.
pub struct Condition;

impl Rule for Condition {
    type Output = RawCondition;

    ghost reads = { condition };

    #[tactic(auto, using(crate::proofs::Tails::conditions))]
    fn read(parser: &mut Parser<'_>) -> Result<RawCondition, ParseFault> {
        let column = Column::read(parser)?;
        let tail = AnyTail::read(parser)?;
        Ok(condition_with(column, tail))
    }
}
