//! The lock, and the rule of the table that its passes share.
ghost use Rattle.std.specs.Prelude.{◌≡◌};

use crate::journal::Journaled;
use crate::view::View;
use atomic_table::{Table, TableRule};
use std::alloc::Global;

/// The ticket that the next caller draws.
pub(crate) const NEXT: usize = 0;

/// The ticket that may go inside.
pub(crate) const SERVING: usize = 1;

/// The length of the journal.
pub(crate) const LENGTH: usize = 2;

/// The slot with the value.
pub(crate) const VALUE: usize = 0;

/// The rule of a ticket lock, which holds between any two steps on its table.
pub struct Order;

impl<C: Journaled> TableRule<Option<C>, View<C::Event>, ()> for Order {
    ghost use Rattle.scn_lock.specs.Rule.{Orderly};
    ghost use Rattle.scn_lock.specs.Steps.{opener};

    ghost holds = { λ _. Orderly C.journal C.number };

    ghost first = { λ _. opener };
}

/// A ticket lock round a value.
#[derive(Drop)]
pub struct ScnLock<C: Journaled> {
    pub(crate) table: Table<Option<C>, View<C::Event>, (), Order, Global>,
    ghost sized: { (table.shared.table_id.words ≡ 3) × (table.shared.table_id.slots ≡ 1) },
}
