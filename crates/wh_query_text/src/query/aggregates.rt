ghost use Rattle.def_grammar.specs.Query.{aggregate_of};
ghost use Rattle.def_grammar.specs.Reading.{◌>>◌, bracketed, mapped, mark, word};
ghost use Rattle.std.specs.Prelude.{codes};
ghost use Rattle.wh_base.specs.declared.queries.RawAgg.TheVariants.{AvgOf, CountOf, CountRows, MaxOf, MinOf, SumOf};
ghost use Rattle.wh_query_text.specs.Parse.{Gives};
ghost use Rattle.wh_query_text.specs.Pieces.{argument_of};

use crate::parser::{ParseFault, Parser};
use crate::query::columns::Expression;
use crate::rule::{Bracketed, Either, Rule};
use wh_base::queries::{RawAgg, RawExpr};

/// COUNT(*).
pub struct CountOfRows;

impl Rule for CountOfRows {
    type Output = RawAgg;

    ghost reads = { mapped (λ t. CountRows) (word (codes "COUNT") >> bracketed (mark (codes "*"))) };

    fn read(parser: &mut Parser<'_>) -> Result<RawAgg, ParseFault> {
        parser.word(b"COUNT")?;
        parser.mark(b"(")?;
        parser.mark(b"*")?;
        parser.mark(b")")?;
        Ok(RawAgg::CountRows)
    }
}

// The expression that an aggregate of this name is of.
fn argument(parser: &mut Parser<'_>, aggregate: &[u8]) -> Result<RawExpr, ParseFault>
    ensures { Gives result parser.new (argument_of aggregate.now parser.old) }
{
    parser.word(aggregate)?;
    Bracketed::<Expression>::read(parser)
}

/// COUNT of an expression.
pub struct CountOfValues;

impl Rule for CountOfValues {
    type Output = RawAgg;

    ghost reads = { aggregate_of (codes "COUNT") CountOf };

    fn read(parser: &mut Parser<'_>) -> Result<RawAgg, ParseFault> {
        let expression = argument(parser, b"COUNT")?;
        Ok(RawAgg::CountOf(expression))
    }
}

/// SUM of an expression.
pub struct SumOfValues;

impl Rule for SumOfValues {
    type Output = RawAgg;

    ghost reads = { aggregate_of (codes "SUM") SumOf };

    fn read(parser: &mut Parser<'_>) -> Result<RawAgg, ParseFault> {
        let expression = argument(parser, b"SUM")?;
        Ok(RawAgg::SumOf(expression))
    }
}

/// AVG of an expression.
pub struct AverageOfValues;

impl Rule for AverageOfValues {
    type Output = RawAgg;

    ghost reads = { aggregate_of (codes "AVG") AvgOf };

    fn read(parser: &mut Parser<'_>) -> Result<RawAgg, ParseFault> {
        let expression = argument(parser, b"AVG")?;
        Ok(RawAgg::AvgOf(expression))
    }
}

/// MIN of an expression.
pub struct LeastOfValues;

impl Rule for LeastOfValues {
    type Output = RawAgg;

    ghost reads = { aggregate_of (codes "MIN") MinOf };

    fn read(parser: &mut Parser<'_>) -> Result<RawAgg, ParseFault> {
        let expression = argument(parser, b"MIN")?;
        Ok(RawAgg::MinOf(expression))
    }
}

/// MAX of an expression.
pub struct GreatestOfValues;

impl Rule for GreatestOfValues {
    type Output = RawAgg;

    ghost reads = { aggregate_of (codes "MAX") MaxOf };

    fn read(parser: &mut Parser<'_>) -> Result<RawAgg, ParseFault> {
        let expression = argument(parser, b"MAX")?;
        Ok(RawAgg::MaxOf(expression))
    }
}

/// MIN or MAX of an expression.
pub type Extreme = Either<LeastOfValues, GreatestOfValues>;

/// An aggregate.
pub type Aggregate = Either<
    CountOfRows,
    Either<CountOfValues, Either<SumOfValues, Either<AverageOfValues, Extreme>>>,
>;
