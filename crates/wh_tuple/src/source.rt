ghost use Rattle.std.specs.Prelude.{◌≡◌, ◌∷◌, [], List, IfOk, cond};
ghost use Rattle.wh_base.specs.declared.tables.RowAt.{RowAt};

use crate::row::TupleRow;
use std::alloc::AllocError;

/// Tuples that come one after another, so that no list of them is kept. Contracts see those that are still to come.
pub trait TupleSource<'a> {
    /// The tuples that are still to come.
    ghost left: { Self → List (List RowAt) };

    /// Puts the next tuple into `tuple`, in place of what it held; false where none is to come. An error says that memory ran out.
    fn next(&mut self, tuple: &mut Vec<TupleRow<'a>>) -> Result<bool, AllocError>
        ensures { IfOk result (λ found. left self.old ≡ cond found (tuple.new.items ∷ left self.new) []) };
}
