//! Passes.
ghost use Rattle.std.specs.Prelude.{◌≡◌, ◌≢◌, [], ◌∷◌, None};

use crate::journal::Journaled;
use crate::view::View;
use atomic_table::Seat;

/// What a thread carries of a lock round a C, whose events are E. It has no bytes.
///
/// Between two calls a pass either is free or is in a turn, which has the value.
///
/// It has no bound on C, so that a struct can hold one where `Journaled` is met by an impl with type parameters.
#[derive(Drop)]
pub struct PassOf<C, E> {
    pub(crate) seat: Seat<Option<C>, View<E>>,
    ghost live: { seat.me.0.live ≡ 1 },
    // in a turn the slot is out with this pass, and empty, since the turn has the value
    ghost holds: { seat.me.0.stage ≡ 3 → seat.me.1 ≡ (0, None) ∷ [] },
    // at any other time it has taken nothing out of the table
    ghost empty: { seat.me.0.stage ≢ 3 → seat.me.1 ≡ [] },
}

/// The pass of a lock round a C.
pub type Pass<C> = PassOf<C, <C as Journaled>::Event>;
