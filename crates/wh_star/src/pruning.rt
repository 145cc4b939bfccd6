ghost use Rattle.std.specs.Prelude.{◌≡◌, IfOk};
ghost use Rattle.def_meaning.specs.Ranges.{misses, query_range};

use crate::equal::equal_columns;
use crate::range::{Range, ranges_of};
use std::alloc::{AllocError, Global};
use wh_base::columns::ColRef;
use wh_base::queries::StarQuery;
use wh_base::values::Interval;

/// The query's interval of a column: what its conditions say of the column and of the columns equal to it by its joins, as in
/// the pruning of partitions of the Data Warehousing Guide. An error says that memory ran out.
pub fn query_range(alloc: Global, query: &StarQuery, column: ColRef) -> Result<Range, AllocError>
    ensures { IfOk result (λ range. range ≡ query_range query.now column) }
{
    let columns = equal_columns(alloc, query.edges.as_slice(), column)?;
    Ok(ranges_of(columns.as_slice(), query.conditions.as_slice()))
}

/// Whether the query's interval of this column misses the interval: each tuple of the query has its value there outside it.
/// An error says that memory ran out.
pub fn misses(
    alloc: Global,
    query: &StarQuery,
    key: ColRef,
    interval: &Interval,
) -> Result<bool, AllocError>
    ensures { IfOk result (λ missed. missed ≡ misses query.now key interval.now) }
{
    let range = query_range(alloc, query, key)?;
    Ok(range.misses(interval.lo.as_ref(), interval.hi.as_ref()))
}
