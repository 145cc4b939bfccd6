ghost use Rattle.std.specs.List.{prefix_len};
ghost use Rattle.std.specs.Prelude.{◌≡◌, IfOk, None};
ghost use Rattle.def_effect.specs.Define.{is_above, is_above_last};
ghost use Rattle.def_restrictions.specs.Intervals.{bounds_meet, intervals_meet};
ghost use Rattle.wh_partmap.specs.History.{bound_before, lies_below, place_of_key, upper_bounds};
ghost use Rattle.wh_partmap.specs.Laws.{BoundsRise};

use std::alloc::{AllocError, Global};
use wh_base::seq::Seq;
use wh_base::tables::Part;
use wh_base::values::{Interval, Value};

/// Whether the second upper bound is above the first; no bound is above every bound.
fn is_above(first: &Option<Value>, second: &Option<Value>) -> bool
    ensures { result ≡ is_above first.now second.now }
{
    match (first, second) {
        (None, _) => false,
        (Some(_), None) => true,
        (Some(first), Some(second)) => first.compare(second).is_lt(),
    }
}

/// Whether an upper bound is above those of the partitions, whose bounds rise.
#[tactic(auto, using(crate::proofs::UpperBounds::last_bound))]
pub fn is_above_last(parts: &[Part], below: &Option<Value>) -> bool
    ensures { result ≡ is_above_last (upper_bounds parts.now) below.now }
{
    match parts.last() {
        Some(part) => is_above(&part.below, below),
        None => true,
    }
}

/// Whether a lower bound is below an upper one.
fn bounds_meet(lo: &Option<Value>, hi: &Option<Value>) -> bool
    ensures { result ≡ bounds_meet lo.now hi.now }
{
    match (lo, hi) {
        (Some(lo), Some(hi)) => lo.compare(hi).is_lt(),
        _ => true,
    }
}

/// Whether each of the two intervals begins before the other ends.
pub fn intervals_meet(one: &Interval, other: &Interval) -> bool
    ensures { result ≡ intervals_meet one.now other.now }
{
    bounds_meet(&one.lo, &other.hi) && bounds_meet(&other.lo, &one.hi)
}

/// The same bound. An error says that memory ran out.
pub fn bound_copied(alloc: Global, bound: &Option<Value>) -> Result<Option<Value>, AllocError>
    ensures { IfOk result (λ b. b ≡ bound.now) }
{
    match bound {
        Some(value) => Ok(Some(value.copy(alloc)?)),
        None => Ok(None),
    }
}

/// How many of the partitions, from the lowest on, lie below the key.
fn count_below(parts: &Seq<Part>, key: &Value) -> usize
    requires { BoundsRise parts.now }
    ensures { result ≡ prefix_len (lies_below key.now) parts.now }
{
    parts.as_slice().partition_point(
        |part: &Part| -> bool
            ensures { result ≡ lies_below key.entry.now part.now }
        { lies_below(part, key) },
    )
}

/// Whether the upper bound is at or below the key.
fn lies_below(part: &Part, key: &Value) -> bool
    ensures { result ≡ lies_below key.now part.now }
{
    match &part.below {
        Some(below) => key.compare(below).is_ge(),
        None => false,
    }
}

/// The lower bound of the partition at a place: the upper bound of the one before it. An error says that memory ran out.
#[tactic(auto, using(crate::proofs::UpperBounds::before))]
pub fn lower_bound(
    alloc: Global,
    parts: &Seq<Part>,
    place: usize,
) -> Result<Option<Value>, AllocError>
    ensures { IfOk result (λ b. b ≡ bound_before None parts.now place) }
{
    let Some(before) = place.checked_sub(1) else {
        return Ok(None);
    };
    match parts.get(before) {
        Some(part) => bound_copied(alloc, &part.below),
        None => Ok(None),
    }
}

/// The place of the partition that has the key in its interval, of partitions whose bounds rise.
#[tactic(auto, using(crate::proofs::Keys::finding))]
pub fn place_of_key(parts: &Seq<Part>, key: &Value) -> Option<u32>
    requires { BoundsRise parts.now }
    ensures { result ≡ place_of_key parts.now key.now }
{
    let place = count_below(parts, key);
    if place < parts.len() {
        Some(place as u32)
    } else {
        None
    }
}
