ghost use Rattle.std.specs.Option.{option_copied};
ghost use Rattle.std.specs.Prelude.{◌≡◌, [], OnOk};
ghost use Rattle.wh_star.specs.Lookups.{entry_added, row_under};
ghost use Rattle.wh_tuple.specs.Meant.{cell_value};

use indexmap::IndexMap;
use std::alloc::{AllocError, Global};
use std::marker::Model;
use wh_base::columns::ColPart;
use wh_base::values::Value;
use wh_tuple::{Cell, TupleRow, cell_in};

/// Rows by their values in one column, without those with NULL there. Contracts see the entries.
#[derive(Drop)]
pub struct KeyIndex<'a> {
    rows: IndexMap<Value, TupleRow<'a>>,
}

impl<'a> Model for KeyIndex<'a> {
    ghost use Rattle.wh_star.specs.Lookups.{Entries};

    ghost Value = { Entries };

    ghost view = { λ k. k.rows.entries };
}

impl<'a> KeyIndex<'a> {
    /// No rows. Takes no memory.
    pub fn new(alloc: Global) -> KeyIndex<'a>
        ensures { result ≡ [] }
    {
        KeyIndex {
            rows: IndexMap::new(alloc),
        }
    }

    /// One more row, by its value in this column, unless that is NULL. An error says that memory ran out.
    pub fn add(&mut self, alloc: Global, part: ColPart, row: TupleRow<'a>) -> Result<(), AllocError>
        ensures { OnOk result (self.new ≡ entry_added part self.old row.entry) }
    {
        let cell = cell_in(&row, part);
        if cell.is_null() {
            return Ok(());
        }
        let key = cell.copy(alloc)?;
        self.rows.insert(key, row)?;
        Ok(())
    }

    /// The row with this value, and none for NULL.
    pub fn row(&self, cell: Cell<'_>) -> Option<&TupleRow<'a>>
        ensures { option_copied result ≡ row_under self.now (cell_value cell.entry) }
    {
        match cell {
            Cell::Kept(value) => {
                if value.is_null() {
                    return None;
                }
                self.rows.get(value)
            }
            Cell::Number(number) => self.rows.get(&Value::Num(number)),
            Cell::Null => None,
        }
    }
}
