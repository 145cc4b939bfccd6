ghost use Rattle.std.proofs.Common.{ap};
ghost use Rattle.std.specs.Cmp;
ghost use Rattle.std.specs.Cmp.{eq_by_cmp_equiv};
ghost use Rattle.std.specs.Ordering.{eq_by_cmp};
ghost use Rattle.std.specs.Prelude.{◌≡◌, IfOk};
ghost use Rattle.wh_base.specs.ValueLaws.{equal_values, hashed, value_total};
ghost use Rattle.wh_base.specs.Values.{value_cmp};
ghost use Rattle.wh_tuple.specs.Meant.{cell_value};

use std::alloc::{AllocError, Global};
use std::hash::{Hash, Hasher};
use std::marker::Model;
use wh_base::seq::Seq;
use wh_base::values::Value;
use wh_tuple::Cell;

/// A value of a group column in a tuple, where it stands. Contracts see the value.
#[derive(Drop)]
pub struct KeyPart<'a> {
    cell: Cell<'a>,
}

impl<'a> Model for KeyPart<'a> {
    ghost use Rattle.wh_base.specs.contracts.values.Value.{the_row};
    ghost use Rattle.wh_group.specs.Keyed.{PartValue};
    ghost use Rattle.wh_tuple.specs.Meant.{cell_value};

    ghost Value = { PartValue };

    ghost coded = { the_row.coded };

    ghost view = { λ p. cell_value p.cell };
}

impl<'a> KeyPart<'a> {
    /// The value of a cell.
    pub fn new(cell: Cell<'a>) -> KeyPart<'a>
        ensures { result ≡ cell_value cell.entry }
    {
        KeyPart { cell }
    }

    /// The value, in memory of its own. An error says that memory ran out.
    pub fn copy(&self, alloc: Global) -> Result<Value, AllocError>
        ensures { IfOk result (λ v. v ≡ self.now) }
    {
        self.cell.copy(alloc)
    }
}

impl PartialEq for KeyPart<'_> {
    ghost eq = { eq_by_cmp value_cmp };

    ghost laws = { Cmp.partial_equiv_from_equiv (eq_by_cmp_equiv value_total) };

    fn eq(&self, other: &Self) -> bool {
        self.cell.compare_cell(other.cell).is_eq()
    }
}

impl Eq for KeyPart<'_> {
    ghost laws = { eq_by_cmp_equiv value_total };
}

impl Hash for KeyPart<'_> {
    ghost hash_input = { hashed };

    ghost respects_eq = { λ x y h. ap hashed (equal_values x y h) };

    fn hash<H: Hasher>(&self, state: &mut H) {
        match self.cell {
            Cell::Kept(value) => value.hash(state),
            Cell::Number(number) => Value::Num(number).hash(state),
            Cell::Null => Value::Null.hash(state),
        }
    }
}

/// The values of a key, in memory of their own. An error says that memory ran out.
pub fn values_of(alloc: Global, key: &[KeyPart<'_>]) -> Result<Seq<Value>, AllocError>
    ensures { IfOk result (λ values. values ≡ key.now) }
{
    let mut values = Vec::with_capacity(alloc, key.len())?;
    for part in key {
        values.push(part.copy(alloc)?)?;
    }
    Seq::from_vec(values)
}
