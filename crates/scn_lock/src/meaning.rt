//! What the rule of the lock means.
ghost use Rattle.std.specs.Prelude.{Option};
ghost use Rattle.atomic_table.specs.Table.{State};
ghost use Rattle.scn_lock.specs.Laws.{Laws};
ghost use Rattle.scn_lock.specs.Rule.{Orderly};
ghost use Rattle.scn_lock.specs.declared.view.View.{View};

use crate::journal::Journaled;
use crate::lock::ScnLock;

/// The laws of the lock: what its rule says, in the words of `specs/Laws.antt`.
///
/// It does nothing. Its contract says that the laws follow from the rule, so they hold between any two steps: the
/// tickets that are out differ and leave no gap, one pass at most is inside and holds the value, what each pass has
/// seen is a beginning of one journal, and the events of each number are those that its pass had.
pub fn laws<C: Journaled>(_lock: &ScnLock<C>)
    ensures { (s : State (Option C) (View C.Event)) → Orderly C.journal C.number s → Laws C.journal C.number s }
{}
