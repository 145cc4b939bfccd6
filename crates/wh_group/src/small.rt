ghost use Rattle.std.specs.List.{list_all};
ghost use Rattle.std.specs.Prelude.{◌≡◌, ◌↔◌, IsTrue};
ghost use Rattle.wh_base.specs.Values.{is_small};
ghost use Rattle.wh_base.specs.declared.values.Value.TheVariants.{Num};
ghost use Rattle.wh_group.specs.Tallies.{HasSmallAggs, is_small_agg, small_item};
ghost use Rattle.wh_tuple.specs.Meant.{IsSmallTuple, is_small_row};

use wh_base::columns::{Agg, Expr};
use wh_base::queries::{Item, StarQuery, Test};
use wh_base::values::Value;
use wh_tuple::TupleRow;

// Whether a number is below 10^15 in size.
fn is_small_number(number: i128) -> bool
    ensures { result ≡ is_small (Num number) }
{
    number.unsigned_abs() < 1_000_000_000_000_000
}

fn is_small_value(value: &Value) -> bool
    ensures { result ≡ is_small value.now }
{
    match value {
        Value::Num(number) => is_small_number(*number),
        _ => true,
    }
}

fn are_small_values(values: &[Value]) -> bool
    ensures { result ≡ list_all is_small values.now }
{
    for value in values {
        if !is_small_value(value) {
            return false;
        }
    }
    true
}

fn is_small_row(row: &TupleRow<'_>) -> bool
    ensures { result ≡ is_small_row row.now }
{
    row.rowid() < 1_000_000_000_000_000
        && row.mark() < 1_000_000_000_000_000
        && are_small_values(row.values().as_slice())
}

/// Whether each number in the tuple is below 10^15 in size, its rowids and the numbers of its partitions too.
pub fn is_small_tuple(tuple: &[TupleRow<'_>]) -> bool
    ensures { IsTrue result ↔ IsSmallTuple tuple.now }
{
    for row in tuple {
        if !is_small_row(row) {
            return false;
        }
    }
    true
}

fn is_small_agg(agg: Agg) -> bool
    ensures { result ≡ is_small_agg agg }
{
    match agg {
        Agg::Count(Expr::Lit(n))
        | Agg::Sum(Expr::Lit(n))
        | Agg::Avg(Expr::Lit(n))
        | Agg::Min(Expr::Lit(n))
        | Agg::Max(Expr::Lit(n)) => is_small_number(n),
        _ => true,
    }
}

fn are_small_items(items: &[Item]) -> bool
    ensures { result ≡ list_all small_item items.now }
{
    for item in items {
        if let Item::Agg(agg) = item {
            if !is_small_agg(*agg) {
                return false;
            }
        }
    }
    true
}

fn are_small_tests(tests: &[Test]) -> bool
    ensures { result ≡ list_all (λ t. is_small_agg t.agg) tests.now }
{
    for test in tests {
        if !is_small_agg(test.agg) {
            return false;
        }
    }
    true
}

/// Whether each number that is written in an aggregate of the query is below 10^15 in size.
#[tactic(auto, using(crate::proofs::Limits::queries))]
pub fn has_small_aggs(query: &StarQuery) -> bool
    ensures { IsTrue result ↔ HasSmallAggs query.now }
{
    are_small_items(query.items.as_slice()) && are_small_tests(query.having.as_slice())
}
