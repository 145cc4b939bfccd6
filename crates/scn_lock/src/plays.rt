//! What each kind of step on the lock's table tells its pass. `steps.rt` takes the steps.
ghost use Rattle.scn_lock.specs.Steps.{drew, served, took, raised, gave, left, looked, made_one, one_made, taken_in, spent_view};

use crate::journal::Journaled;
use crate::view::View;
use atomic_table::{Join, Play, Split};

/// Draws a ticket, by an addition to next.
pub(crate) struct Draw;

impl<C: Journaled> Play<Option<C>, View<C::Event>> for Draw {
    ghost then = { drew };
}

/// Reads serving, and is inside where its own ticket stands there.
pub(crate) struct Serve;

impl<C: Journaled> Play<Option<C>, View<C::Event>> for Serve {
    ghost then = { served };
}

/// Takes the value out of the slot, beside a load.
pub(crate) struct Take;

impl<C: Journaled> Play<Option<C>, View<C::Event>> for Take {
    ghost then = { took C.journal C.number };
}

/// Raises the length: the turn's event enters the journal.
pub(crate) struct Raise;

impl<C: Journaled> Play<Option<C>, View<C::Event>> for Raise {
    ghost then = { raised C.journal C.number };
}

/// Gives the value back to the slot, beside a load.
pub(crate) struct Give;

impl<C: Journaled> Play<Option<C>, View<C::Event>> for Give {
    ghost then = { gave };
}

/// Raises serving: the next ticket's turn comes.
pub(crate) struct Leave;

impl<C: Journaled> Play<Option<C>, View<C::Event>> for Leave {
    ghost then = { left };
}

/// A load that changes nothing and tells what the rule says of the pass: a split and a join tell none of it.
pub(crate) struct Look;

impl<C: Journaled> Play<Option<C>, View<C::Event>> for Look {
    ghost then = { looked C.number };
}

/// Makes a pass.
pub(crate) struct Cut;

impl<E> Split<View<E>> for Cut {
    ghost left = { made_one };

    ghost right = { one_made };
}

/// Takes a pass in.
pub(crate) struct Glue;

impl<E> Join<View<E>> for Glue {
    ghost both = { taken_in };

    ghost spent = { spent_view };
}
