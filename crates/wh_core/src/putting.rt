ghost use Rattle.std.specs.Prelude.{◌≡◌};
ghost use Rattle.wh_base.specs.Lists.{option_nat_same};
ghost use Rattle.wh_core.specs.Put.{put, put_over};

use crate::catalog::refusal;
use crate::refreshing::Begun;
use wh_answer::Computed;
use wh_base::replies::{RefreshDone, Refusal, Reply};
use wh_view::Views;

/// Whether a point is still the same.
fn is_same_point(before: Option<u64>, now: Option<u64>) -> bool
    ensures { result ≡ option_nat_same before now }
{
    match (before, now) {
        (None, None) => true,
        (Some(before), Some(now)) => before == now,
        _ => false,
    }
}

/// The view with a number takes the rows that were computed over the image of a begin, if it is there and its point is the one that it had
/// then. Takes no memory.
fn put_over(views: &mut Views, begun: Begun, computed: Computed, number: u64) -> Reply
    ensures views { views.new ≡ (put_over views.old begun computed number).0 }
    ensures reply { result ≡ (put_over views.old begun computed number).1 }
{
    let Begun {
        name,
        point,
        scn,
        ..
    } = begun;
    let Computed { used, rows, read } = computed;
    let Some(view) = views.numbered(number) else {
        return refusal(Refusal::NoSuchObject(name), read);
    };
    let point_now = view.point();
    if !is_same_point(point, point_now) {
        return refusal(Refusal::Overtaken(name, point, point_now), read);
    }
    let holds = rows.get().len() as u64;
    views.refresh(number, scn, rows);
    Reply::Refresh(RefreshDone {
        method: used,
        scn,
        read,
        holds,
    })
}

/// The install of a refresh into the views, and its reply. Takes no memory.
pub(crate) fn put(views: &mut Views, begun: Begun, computed: Option<Computed>) -> Reply
    ensures views { views.new ≡ (put views.old begun computed).0 }
    ensures reply { result ≡ (put views.old begun computed).1 }
{
    let Some(computed) = computed else {
        return refusal(Refusal::NoSuchObject(begun.name), 0);
    };
    match begun.view {
        Some(number) => put_over(views, begun, computed, number),
        None => refusal(Refusal::NoSuchObject(begun.name), 0),
    }
}
