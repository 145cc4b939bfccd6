ghost use Rattle.std.specs.Prelude.{◌≡◌, ◌<◌, [], ◌∷◌, ◌++◌, IfOk, OnErr, OnOk, length, take};
ghost use Rattle.std.specs.FinMap as map;
ghost use Rattle.wh_keyindex.specs.Children.{places_with};
ghost use Rattle.wh_keys.specs.Made.{AnswersKeys, empty_indexes, foreign_at, foreign_made, indexes_at, key_at, keys_made};
ghost use Rattle.wh_keys.specs.Undoing.{all_before, all_now};

use crate::revoke::{keep_all, roll_back_all};
use crate::table_keys::TableKeys;
use std::alloc::{AllocError, Global};
use std::marker::Model;
use wh_base::tables::{ForeignDef, TableDef};
use wh_base::values::Value;
use wh_dml::RowChange;

/// The indexes of all tables, by the tables' numbers: contracts see them as they are now and as they were before the open
/// block. The changes of a block can be taken back at any time, also after an error in the midst of one, without memory.
#[derive(Drop)]
pub struct Keys {
    tables: Vec<TableKeys>,
}

impl Model for Keys {
    ghost use Rattle.wh_keys.specs.Coded.{Held, held_code};
    ghost use Rattle.wh_keys.specs.Undoing.{all_before, all_now};

    ghost Value = { Held };

    ghost coded = { held_code };

    ghost view = { λ k. record { now = all_now k.tables.items; before = all_before k.tables.items } };
}

impl Keys {
    /// No tables, and no block. Takes no memory.
    pub fn new(alloc: Global) -> Keys
        ensures { result ≡ record { now = []; before = [] } }
    {
        Keys {
            tables: Vec::new(alloc),
        }
    }

    /// One table more, without rows and with the next number. No block must be open. After an error, which says that memory
    /// ran out, the tables are as they were.
    #[tactic(auto, using(crate::proofs::Tables::pushed))]
    pub fn push_table(&mut self, alloc: Global, def: &TableDef) -> Result<(), AllocError>
        requires settled { self.old.now ≡ self.old.before }
        ensures ok { OnOk result (self.new ≡ record { now = self.old.now ++ empty_indexes def.now ∷ []; before = self.old.before ++ empty_indexes def.now ∷ [] }) }
        ensures err { OnErr result (self.new ≡ self.old) }
    {
        self.tables.push(TableKeys::new(alloc, def)?)?;
        Ok(())
    }

    /// The tables from this number on go, with their indexes. Takes no memory.
    #[tactic(auto, using(crate::proofs::Tables::truncated))]
    pub fn truncate(&mut self, tables: usize)
        ensures { self.new ≡ record { now = take tables self.old.now; before = take tables self.old.before } }
    {
        self.tables.truncate(tables);
    }

    /// Changes the indexes of a table's keys, which are in these columns in the order of declaration. It gives the first
    /// column in which two rows would have one value, and `None` where there is none; only then all indexes are changed. An
    /// error says that memory ran out, or that the block has 2^32 - 16 changes in one index.
    ///
    /// After an error and after a column the indexes are changed in part, so the block must be rolled back.
    pub fn change_keys(
        &mut self,
        alloc: Global,
        table: u32,
        columns: &[u32],
        changes: &[RowChange],
    ) -> Result<Option<u32>, AllocError>
        requires there { table < length self.old.now }
        requires as_many { length columns.now ≡ length (indexes_at self.old.now table).keys }
        ensures same { self.new.before ≡ self.old.before }
        ensures made { IfOk result (λ clash. AnswersKeys (keys_made table columns.now changes.now self.old.now) clash self.new.now) }
    {
        let clash = change_keys_of(&mut self.tables, table as usize, alloc, columns, changes)?;
        Ok(clash)
    }

    /// Changes the indexes of a table's foreign keys, which are given in the order of declaration. An error says that memory
    /// ran out, or that the block has 2^32 - 16 changes in one index; then the indexes are changed in part, so the block must
    /// be rolled back.
    pub fn change_foreign(
        &mut self,
        alloc: Global,
        table: u32,
        foreign: &[ForeignDef],
        changes: &[RowChange],
    ) -> Result<(), AllocError>
        requires there { table < length self.old.now }
        requires as_many { length foreign.now ≡ length (indexes_at self.old.now table).foreign }
        ensures same { self.new.before ≡ self.old.before }
        ensures made { OnOk result (self.new.now ≡ foreign_made table foreign.now changes.now self.old.now) }
    {
        change_foreign_of(&mut self.tables, table as usize, alloc, foreign, changes)?;
        Ok(())
    }

    /// The place of the row of a table with the value in the key with this number, counted from 0; `None` exactly where there
    /// is none.
    #[tactic(auto, using(crate::proofs::Tables::found))]
    pub fn find(&self, table: u32, key: usize, value: &Value) -> Option<u64>
        ensures { result ≡ map.get (key_at (indexes_at self.now.now table).keys key) value.now }
    {
        match self.tables.get(table as usize) {
            Some(indexes) => indexes.find(key, value),
            None => None,
        }
    }

    /// How many rows of a table have the value in the foreign key with this number, counted from 0.
    #[tactic(auto, using(crate::proofs::Tables::found))]
    pub fn children(&self, table: u32, foreign: usize, value: &Value) -> u64
        ensures { result ≡ places_with value.now (foreign_at (indexes_at self.now.now table).foreign foreign) }
    {
        match self.tables.get(table as usize) {
            Some(indexes) => indexes.children(foreign, value),
            None => 0,
        }
    }

    /// The indexes as they were before the block. Takes no memory.
    pub fn roll_back(&mut self)
        ensures { self.new ≡ record { now = self.old.before; before = self.old.before } }
    {
        roll_back_all(&mut self.tables);
    }

    /// The indexes stay as they are now, and the block is over. Takes no memory.
    pub fn keep(&mut self)
        ensures { self.new ≡ record { now = self.old.now; before = self.old.now } }
    {
        keep_all(&mut self.tables);
    }
}

/// `TableKeys::change_keys` of the table with this number.
fn change_keys_of(
    tables: &mut Vec<TableKeys>,
    table: usize,
    alloc: Global,
    columns: &[u32],
    changes: &[RowChange],
) -> Result<Option<u32>, AllocError>
    requires there { table < length tables.old.items }
    requires as_many { length columns.now ≡ length (indexes_at (all_now tables.old.items) table).keys }
    ensures same { all_before tables.new.items ≡ all_before tables.old.items }
    ensures made { IfOk result (λ clash. AnswersKeys (keys_made table columns.now changes.now (all_now tables.old.items)) clash (all_now tables.new.items)) }
{
    let clash = tables[table].change_keys(alloc, columns, changes)?;
    Ok(clash)
}

/// `TableKeys::change_foreign` of the table with this number.
fn change_foreign_of(
    tables: &mut Vec<TableKeys>,
    table: usize,
    alloc: Global,
    foreign: &[ForeignDef],
    changes: &[RowChange],
) -> Result<(), AllocError>
    requires there { table < length tables.old.items }
    requires as_many { length foreign.now ≡ length (indexes_at (all_now tables.old.items) table).foreign }
    ensures same { all_before tables.new.items ≡ all_before tables.old.items }
    ensures made { OnOk result (all_now tables.new.items ≡ foreign_made table foreign.now changes.now (all_now tables.old.items)) }
{
    tables[table].change_foreign(alloc, foreign, changes)?;
    Ok(())
}
