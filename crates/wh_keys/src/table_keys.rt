ghost use Rattle.std.specs.Prelude.{◌≡◌, ◌<◌, IfOk, OnOk, length, map as each, vec_len};
ghost use Rattle.std.specs.FinMap as map;
ghost use Rattle.wh_base.specs.Lists.{where_true};
ghost use Rattle.wh_keyindex.specs.Children.{places_with};
ghost use Rattle.wh_keys.specs.Indexes.{keys_changed, values_changed};
ghost use Rattle.wh_keys.specs.Made.{AnswersKeys, all_keys_changed, all_values_changed, changed_at, empty_indexes, foreign_at, key_at, with_change};
ghost use Rattle.wh_keys.specs.Undoing.{all_before, all_now, kept, nothing, rolled_back};

use crate::child_values::ChildValues;
use crate::key_places::KeyPlaces;
use crate::revoke::{Revoke, keep_all, roll_back_all};
use std::alloc::{AllocError, Global};
use std::marker::Model;
use wh_base::tables::{ForeignDef, TableDef};
use wh_base::values::Value;
use wh_dml::RowChange;

/// The indexes of a table, of its keys and of its foreign keys, in the order of declaration: contracts see them as they
/// are now and as they were before the open block.
#[derive(Drop)]
pub struct TableKeys {
    keys: Vec<KeyPlaces>,
    foreign: Vec<ChildValues>,
}

impl Model for TableKeys {
    ghost use Rattle.wh_keys.specs.Coded.{HeldIndexes, held_indexes_code, held_of};

    ghost Value = { HeldIndexes };

    ghost coded = { held_indexes_code };

    ghost view = { λ t. held_of t.keys.items t.foreign.items };
}

impl TableKeys {
    /// The indexes of a table without rows. An error says that memory ran out.
    #[tactic(auto, using(crate::proofs::Each::empty))]
    pub fn new(alloc: Global, def: &TableDef) -> Result<TableKeys, AllocError>
        ensures { IfOk result (λ t. t ≡ record { now = empty_indexes def.now; before = empty_indexes def.now }) }
    {
        let keys = empty_keys(alloc, def.keys.as_slice())?;
        let foreign = empty_foreign(alloc, def.foreign.as_slice())?;
        Ok(TableKeys { keys, foreign })
    }

    /// The place of the row with the value in the key with this number; `None` exactly where there is none.
    #[tactic(auto, using(crate::proofs::Each::found))]
    pub fn find(&self, key: usize, value: &Value) -> Option<u64>
        ensures { result ≡ map.get (key_at self.now.now.keys key) value.now }
    {
        match self.keys.get(key) {
            Some(index) => index.find(value),
            None => None,
        }
    }

    /// How many rows have the value in the foreign key with this number.
    #[tactic(auto, using(crate::proofs::Each::found))]
    pub fn children(&self, foreign: usize, value: &Value) -> u64
        ensures { result ≡ places_with value.now (foreign_at self.now.now.foreign foreign) }
    {
        match self.foreign.get(foreign) {
            Some(index) => index.count(value),
            None => 0,
        }
    }

    /// The indexes of the keys after changes of rows, or the first column in which two rows would have one value; then the
    /// indexes are changed in part. An error says that memory ran out, or that the block has too many changes, also with the
    /// indexes changed in part.
    pub fn change_keys(
        &mut self,
        alloc: Global,
        columns: &[u32],
        changes: &[RowChange],
    ) -> Result<Option<u32>, AllocError>
        requires { length columns.now ≡ length self.old.now.keys }
        ensures same { self.new.before ≡ self.old.before }
        ensures others { self.new.now.foreign ≡ self.old.now.foreign }
        ensures made { IfOk result (λ clash. AnswersKeys (all_keys_changed columns.now changes.now self.old.now.keys) clash self.new.now.keys) }
    {
        let clash = change_all_keys(&mut self.keys, alloc, columns, changes)?;
        Ok(clash)
    }

    /// The indexes of the foreign keys after changes of rows. An error says that memory ran out, or that the block has too
    /// many changes; the indexes may then be changed in part.
    pub fn change_foreign(
        &mut self,
        alloc: Global,
        foreign: &[ForeignDef],
        changes: &[RowChange],
    ) -> Result<(), AllocError>
        requires { length foreign.now ≡ length self.old.now.foreign }
        ensures same { self.new.before ≡ self.old.before }
        ensures others { self.new.now.keys ≡ self.old.now.keys }
        ensures made { OnOk result (self.new.now.foreign ≡ all_values_changed foreign.now changes.now self.old.now.foreign) }
    {
        change_all_foreign(&mut self.foreign, alloc, foreign, changes)?;
        Ok(())
    }
}

impl Revoke for TableKeys {
    ghost rolled_back = { rolled_back };

    ghost kept = { kept };

    fn roll_back(&mut self) {
        roll_back_all(&mut self.keys);
        roll_back_all(&mut self.foreign);
    }

    fn keep(&mut self) {
        keep_all(&mut self.keys);
        keep_all(&mut self.foreign);
    }
}

/// An index without rows for each of the keys. An error says that memory ran out.
fn empty_keys(alloc: Global, columns: &[u32]) -> Result<Vec<KeyPlaces>, AllocError>
    ensures { IfOk result (λ keys. keys.items ≡ each (λ _. nothing) columns.now) }
{
    let mut keys = Vec::with_capacity(alloc, columns.len())?;
    for column in columns {
        let _ = column;
        keys.push(KeyPlaces::new(alloc))?;
    }
    Ok(keys)
}

/// An index without rows for each of the foreign keys. An error says that memory ran out.
fn empty_foreign(alloc: Global, defs: &[ForeignDef]) -> Result<Vec<ChildValues>, AllocError>
    ensures { IfOk result (λ foreign. foreign.items ≡ each (λ _. nothing) defs.now) }
{
    let mut foreign = Vec::with_capacity(alloc, defs.len())?;
    for def in defs {
        let _ = def;
        foreign.push(ChildValues::new(alloc))?;
    }
    Ok(foreign)
}

/// `KeyPlaces::change` of each index with its column, up to a value that would be there twice: then it gives that column.
#[tactic(auto, using(crate::proofs::Each::keys))]
fn change_all_keys(
    keys: &mut Vec<KeyPlaces>,
    alloc: Global,
    columns: &[u32],
    changes: &[RowChange],
) -> Result<Option<u32>, AllocError>
    requires { length columns.now ≡ length keys.old.items }
    ensures same { all_before keys.new.items ≡ all_before keys.old.items }
    ensures made { IfOk result (λ clash. AnswersKeys (all_keys_changed columns.now changes.now (all_now keys.old.items)) clash (all_now keys.new.items)) }
{
    for at in 0..columns.len() {
        if !change_key_at(keys, at, alloc, columns[at], changes)? {
            return Ok(Some(columns[at]));
        }
    }
    Ok(None)
}

/// `KeyPlaces::change` of the index at a place.
fn change_key_at(
    keys: &mut Vec<KeyPlaces>,
    at: usize,
    alloc: Global,
    column: u32,
    changes: &[RowChange],
) -> Result<bool, AllocError>
    requires { at < length keys.old.items }
    ensures same { all_before keys.new.items ≡ all_before keys.old.items }
    ensures len { length keys.new.items ≡ length keys.old.items }
    ensures made { IfOk result (λ made. changed_at at (keys_changed column changes.now) (all_now keys.old.items) ≡ where_true made (all_now keys.new.items)) }
{
    let made = keys[at].change(alloc, column, changes)?;
    Ok(made)
}

/// `ChildValues::change` of each index with its column.
#[tactic(auto, using(crate::proofs::Each::foreign))]
fn change_all_foreign(
    indexes: &mut Vec<ChildValues>,
    alloc: Global,
    foreign: &[ForeignDef],
    changes: &[RowChange],
) -> Result<(), AllocError>
    requires { length foreign.now ≡ length indexes.old.items }
    ensures same { all_before indexes.new.items ≡ all_before indexes.old.items }
    ensures made { OnOk result (all_now indexes.new.items ≡ all_values_changed foreign.now changes.now (all_now indexes.old.items)) }
{
    for at in 0..foreign.len() {
        change_foreign_at(indexes, at, alloc, foreign[at].column, changes)?;
    }
    Ok(())
}

/// `ChildValues::change` of the index at a place.
fn change_foreign_at(
    indexes: &mut Vec<ChildValues>,
    at: usize,
    alloc: Global,
    column: u32,
    changes: &[RowChange],
) -> Result<(), AllocError>
    requires { at < length indexes.old.items }
    ensures same { all_before indexes.new.items ≡ all_before indexes.old.items }
    ensures len { length indexes.new.items ≡ length indexes.old.items }
    ensures made { OnOk result (all_now indexes.new.items ≡ with_change at (values_changed column changes.now) (all_now indexes.old.items)) }
{
    indexes[at].change(alloc, column, changes)?;
    Ok(())
}
