ghost use Rattle.def_grammar.specs.Query.{select};
ghost use Rattle.wh_query_text.specs.Parse.{Gives};

use crate::parser::{ParseFault, Parser};
use crate::query::clauses::Select;
use crate::rule::Rule;
use wh_base::queries::RawQuery;

pub mod aggregates;
pub mod clauses;
pub mod columns;
pub mod conditions;
pub mod items;
pub mod pieces;

/// The query that stands next: `SELECT` with its parts, after the SQL language, in the form that this project reads.
/// The place is then behind its last token.
///
/// `Syntax` says that no query stands there, and `Memory` that memory ran out. After either the place is any.
pub fn read_query(parser: &mut Parser<'_>) -> Result<RawQuery, ParseFault>
    ensures { Gives result parser.new (select parser.old) }
{
    Select::read(parser)
}
