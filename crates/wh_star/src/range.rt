ghost use Rattle.std.specs.List.{filter};
ghost use Rattle.std.specs.Option.{option_copied};
ghost use Rattle.std.specs.Prelude.{◌≡◌, option_map, true, unwrap_or};
ghost use Rattle.def_meaning.specs.Meaning.{either_value, greater, lesser, max_value, min_value, not_null};
ghost use Rattle.def_meaning.specs.Ranges.{above_interval, below_interval, both_ranges, from_value, greater_bound, lesser_bound, range_misses, range_of, range_of_list, range_of_op, ranges_of, up_to, whole_range};
ghost use Rattle.wh_star.specs.Bounds.{upper};

use crate::equal::has_column;
use std::marker::Model;
use wh_base::columns::ColRef;
use wh_base::queries::Condition;
use wh_base::values::{Op, Value};

/// What conditions say of a column: a lower bound, and an upper bound that is inclusive (true) or not. `None` is no bound.
#[derive(Drop)]
pub struct Range<'a> {
    least: Option<&'a Value>,
    most: Option<(&'a Value, bool)>,
}

impl<'a> Model for Range<'a> {
    ghost use Rattle.std.specs.Option.{option_copied};
    ghost use Rattle.std.specs.Prelude.{option_map};
    ghost use Rattle.def_meaning.specs.Ranges.{Range};
    ghost use Rattle.wh_star.specs.Bounds.{upper};

    ghost Value = { Range };

    ghost view = { λ r. record { least = option_copied r.least; most = option_map upper r.most } };
}

// The greater of two lower bounds.
fn greater_bound<'a>(a: Option<&'a Value>, b: Option<&'a Value>) -> Option<&'a Value>
    ensures { option_copied result ≡ greater_bound (option_copied a.entry) (option_copied b.entry) }
{
    match (a, b) {
        (None, _) => b,
        (_, None) => a,
        (Some(v), Some(w)) => {
            if v.compare(w).is_lt() {
                Some(w)
            } else {
                Some(v)
            }
        }
    }
}

// The lesser of two upper bounds; of equal values the exclusive one.
fn lesser_bound<'a>(
    a: Option<(&'a Value, bool)>,
    b: Option<(&'a Value, bool)>,
) -> Option<(&'a Value, bool)>
    ensures { option_map upper result ≡ lesser_bound (option_map upper a.entry) (option_map upper b.entry) }
{
    match (a, b) {
        (None, _) => b,
        (_, None) => a,
        (Some(v), Some(w)) => {
            if v.0.compare(w.0).then(v.1.cmp(&w.1)).is_lt() {
                Some(v)
            } else {
                Some(w)
            }
        }
    }
}

// The upper bound lies below an interval that begins with `lo`.
fn is_below(most: Option<(&Value, bool)>, lo: Option<&Value>) -> bool
    ensures { result ≡ below_interval (option_map upper most.entry) (option_copied lo.entry) }
{
    match (most, lo) {
        (Some((value, inclusive)), Some(lo)) => {
            let order = value.compare(lo);
            order.is_lt() || order.is_eq() && !inclusive
        }
        _ => false,
    }
}

// The lower bound lies above an interval that ends before `hi`.
fn is_above(least: Option<&Value>, hi: Option<&Value>) -> bool
    ensures { result ≡ above_interval (option_copied least.entry) (option_copied hi.entry) }
{
    match (least, hi) {
        (Some(value), Some(hi)) => value.compare(hi).is_ge(),
        _ => false,
    }
}

impl<'a> Range<'a> {
    /// No bounds.
    pub fn whole() -> Range<'a>
        ensures { result ≡ whole_range }
    {
        Range {
            least: None,
            most: None,
        }
    }

    // From this value on; NULL gives no bound.
    fn from_value(value: &'a Value) -> Range<'a>
        ensures { result ≡ from_value value.now }
    {
        if value.is_null() {
            return Range::whole();
        }
        Range {
            least: Some(value),
            most: None,
        }
    }

    // Up to this value; NULL gives no bound.
    fn up_to(value: &'a Value, inclusive: bool) -> Range<'a>
        ensures { result ≡ up_to value.now inclusive }
    {
        if value.is_null() {
            return Range::whole();
        }
        Range {
            least: None,
            most: Some((value, inclusive)),
        }
    }

    // What two conditions say together.
    fn both(self, other: Range<'a>) -> Range<'a>
        ensures { result ≡ both_ranges self.entry other.entry }
    {
        Range {
            least: greater_bound(self.least, other.least),
            most: lesser_bound(self.most, other.most),
        }
    }

    /// Whether it misses the values from `lo` up to and without `hi`, where `None` is no bound.
    pub fn misses(&self, lo: Option<&Value>, hi: Option<&Value>) -> bool
        ensures { result ≡ range_misses self.now (record { lo = option_copied lo.entry; hi = option_copied hi.entry }) }
    {
        is_below(self.most, lo) || is_above(self.least, hi)
    }
}

// What a comparison with a value says; `<>` gives no bound.
fn range_of_op<'a>(op: Op, value: &'a Value) -> Range<'a>
    ensures { result ≡ range_of_op op value.now }
{
    match op {
        Op::Eq => Range::from_value(value).both(Range::up_to(value, true)),
        Op::Ne => Range::whole(),
        Op::Lt => Range::up_to(value, false),
        Op::Le => Range::up_to(value, true),
        Op::Gt | Op::Ge => Range::from_value(value),
    }
}

// The least of these values that isn't NULL.
#[tactic(auto, using(crate::proofs::Extremes::extremes))]
fn least_of(values: &[Value]) -> Option<&Value>
    ensures { unwrap_or (option_copied result) Value.Null ≡ min_value (filter not_null values.now) }
{
    let mut least: Option<&Value> = None;
    for value in values {
        least = lesser(least, value);
    }
    least
}

// The greatest of these values that isn't NULL.
#[tactic(auto, using(crate::proofs::Extremes::extremes))]
fn greatest_of(values: &[Value]) -> Option<&Value>
    ensures { unwrap_or (option_copied result) Value.Null ≡ max_value (filter not_null values.now) }
{
    let mut greatest: Option<&Value> = None;
    for value in values {
        greatest = greater(greatest, value);
    }
    greatest
}

// The lesser of the least so far and one more value; NULL gives way.
fn lesser<'a>(least: Option<&'a Value>, value: &'a Value) -> Option<&'a Value>
    ensures { unwrap_or (option_copied result) Value.Null ≡ either_value lesser (unwrap_or (option_copied least.entry) Value.Null) value.now }
{
    match least {
        None => Some(value),
        Some(other) => {
            if value.is_null() || !other.is_null() && !other.compare(value).is_gt() {
                Some(other)
            } else {
                Some(value)
            }
        }
    }
}

// The greater of the greatest so far and one more value; NULL gives way.
fn greater<'a>(greatest: Option<&'a Value>, value: &'a Value) -> Option<&'a Value>
    ensures { unwrap_or (option_copied result) Value.Null ≡ either_value greater (unwrap_or (option_copied greatest.entry) Value.Null) value.now }
{
    match greatest {
        None => Some(value),
        Some(other) => {
            if value.is_null() || !other.is_null() && !other.compare(value).is_lt() {
                Some(other)
            } else {
                Some(value)
            }
        }
    }
}

// From this value on, where there is one.
fn from_found(value: Option<&Value>) -> Range
    ensures { result ≡ from_value (unwrap_or (option_copied value.entry) Value.Null) }
{
    match value {
        Some(value) => Range::from_value(value),
        None => Range::whole(),
    }
}

// Up to this value and with it, where there is one.
fn up_to_found(value: Option<&Value>) -> Range
    ensures { result ≡ up_to (unwrap_or (option_copied value.entry) Value.Null) true }
{
    match value {
        Some(value) => Range::up_to(value, true),
        None => Range::whole(),
    }
}

// What IN says: from its least to its greatest value that isn't NULL.
fn range_of_list(values: &[Value]) -> Range
    ensures { result ≡ range_of_list values.now }
{
    from_found(least_of(values)).both(up_to_found(greatest_of(values)))
}

// What a condition says of these columns.
fn range_of<'a>(columns: &[ColRef], condition: &'a Condition) -> Range<'a>
    ensures { result ≡ range_of columns.now condition.now }
{
    match condition {
        Condition::Compare(column, op, value) => {
            if has_column(columns, *column) {
                return range_of_op(*op, value);
            }
            Range::whole()
        }
        Condition::OneOf(column, values) => {
            if has_column(columns, *column) {
                return range_of_list(values.as_slice());
            }
            Range::whole()
        }
        _ => Range::whole(),
    }
}

/// What all these conditions say together of these columns.
#[tactic(auto, using(crate::proofs::Extremes::conditions))]
pub fn ranges_of<'a>(columns: &[ColRef], conditions: &'a [Condition]) -> Range<'a>
    ensures { result ≡ ranges_of columns.now conditions.now }
{
    let mut range = Range::whole();
    let mut at = conditions.len();
    while at > 0 {
        at -= 1;
        range = range_of(columns, &conditions[at]).both(range);
    }
    range
}
