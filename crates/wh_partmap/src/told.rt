ghost use Rattle.std.specs.Prelude.{◌≡◌, ◌<◌, IfOk, Some, length, slice_get};
ghost use Rattle.wh_partmap.specs.History.{touches_after, touches_at};
ghost use Rattle.wh_partmap.specs.Laws.{TouchesRise};

use crate::bounds::{bound_copied, lower_bound};
use std::alloc::{AllocError, Global};
use wh_base::seq::Seq;
use wh_base::tables::{Part, Touch};
use wh_base::values::Interval;

/// The touches after an SCN, of touches in the order of their SCNs.
pub fn touches_behind(touches: &[Touch], scn: u64) -> &[Touch]
    requires { TouchesRise touches.now }
    ensures { result.now ≡ touches_after touches.now scn }
{
    let place = touches.partition_point(|touch: &Touch| touch.scn <= scn);
    &touches[place..]
}

/// The touch of the partition at a place at this SCN. An error says that memory ran out.
#[tactic(auto, using(crate::proofs::Touching::touching))]
pub fn touch_at(
    alloc: Global,
    parts: &Seq<Part>,
    place: usize,
    scn: u64,
) -> Result<Touch, AllocError>
    requires { place < length parts.now }
    ensures touch { IfOk result (λ t. slice_get (touches_at parts.now scn) place ≡ Some t) }
    ensures scn { IfOk result (λ t. t.scn ≡ scn) }
{
    match parts.get(place) {
        Some(part) => Ok(Touch {
            interval: Interval {
                lo: lower_bound(alloc, parts, place)?,
                hi: bound_copied(alloc, &part.below)?,
            },
            number: part.number,
            scn,
        }),
        None => unreachable!(),
    }
}
