ghost use Rattle.std.specs.Prelude.{◌≡◌, ◌+◌, ◌<◌, ◌≤◌, IfOk, OnOk, vec_capacity, vec_len};
ghost use Rattle.std.specs.FinMap as map;
ghost use Rattle.std.specs.Option.{option_copied};
ghost use Rattle.wh_keyindex.specs.Children.{places_with};
ghost use Rattle.wh_keys.specs.Indexes.{coming, going, values_changed};
ghost use Rattle.wh_keys.specs.Made.{with_place, with_places, without_place, without_places};
ghost use Rattle.wh_keys.specs.Undoing.{kept, rolled_back, set_to, undone};

use crate::entry::{Entry, entry_of};
use crate::revoke::Revoke;
use crate::was::Was;
use std::alloc::{AllocError, Global};
use std::marker::Model;
use wh_base::copied::Copied;
use wh_base::values::Value;
use wh_dml::RowChange;
use wh_keyindex::ChildIndex;

/// How many changes of a block an index keeps at the most.
const MOST: usize = 0xffff_fff0;

/// The index of a foreign key, with a note of each change that the open block made: contracts see the value of each place
/// as it is now and as it was before the block. It always has the memory to be as it was again.
#[derive(Drop)]
pub struct ChildValues {
    index: ChildIndex,
    log: Vec<Was<u64, Value>>,
}

impl Model for ChildValues {
    ghost use Rattle.std.specs.Prelude.{◌≤◌, vec_len};
    ghost use Rattle.wh_keys.specs.Coded.{HeldValues, held_values_code};
    ghost use Rattle.wh_keys.specs.Undoing.{undone};

    ghost Value = { HeldValues };

    ghost coded = { held_values_code };

    ghost view = { λ v. record { now = v.index.values; before = undone v.log.items v.index.values } };

    ghost invariant = { λ v. vec_len v.log ≤ v.index.spare };
}

impl ChildValues {
    /// No places, and no block. Takes no memory.
    pub fn new(alloc: Global) -> ChildValues
        ensures { result ≡ record { now = map.empty; before = map.empty } }
    {
        ChildValues {
            index: ChildIndex::new(alloc),
            log: Vec::new(alloc),
        }
    }

    /// How many places have the value.
    pub fn count(&self, value: &Value) -> u64
        ensures { result ≡ places_with value.now self.now.now }
    {
        self.index.count(value)
    }

    /// The index after changes of rows: first the places that go, then those that come. An error says that memory ran out, or
    /// that the block has 2^32 - 16 changes; the index may then be changed in part.
    pub fn change(
        &mut self,
        alloc: Global,
        column: u32,
        changes: &[RowChange],
    ) -> Result<(), AllocError>
        ensures same { self.new.before ≡ self.old.before }
        ensures ok { OnOk result (self.new.now ≡ values_changed column changes.now self.old.now) }
    {
        self.take_out_all(alloc, column, changes)?;
        self.put_in_all(alloc, column, changes)?;
        Ok(())
    }

    /// Takes out the places that go. After an error some may be out.
    #[tactic(auto, using(crate::proofs::PlaceTurns::goes))]
    fn take_out_all(
        &mut self,
        alloc: Global,
        column: u32,
        changes: &[RowChange],
    ) -> Result<(), AllocError>
        ensures same { self.new.before ≡ self.old.before }
        ensures ok { OnOk result (self.new.now ≡ without_places (going column changes.now) self.old.now) }
    {
        for change in changes {
            self.take_out_entry(alloc, entry_of(column, &change.old))?;
        }
        Ok(())
    }

    /// Puts in the places that come. After an error some may be in.
    #[tactic(auto, using(crate::proofs::PlaceTurns::comes))]
    fn put_in_all(
        &mut self,
        alloc: Global,
        column: u32,
        changes: &[RowChange],
    ) -> Result<(), AllocError>
        ensures same { self.new.before ≡ self.old.before }
        ensures ok { OnOk result (self.new.now ≡ with_places (coming column changes.now) self.old.now) }
    {
        for change in changes {
            self.put_in_entry(alloc, entry_of(column, &change.new))?;
        }
        Ok(())
    }

    /// Takes out the place of a row, where it has a value.
    fn take_out_entry(&mut self, alloc: Global, entry: Option<Entry<'_>>) -> Result<(), AllocError>
        ensures same { self.new.before ≡ self.old.before }
        ensures ok { OnOk result (self.new.now ≡ without_place entry.entry self.old.now) }
    {
        if let Some(entry) = entry {
            self.set(alloc, entry.place, None)?;
        }
        Ok(())
    }

    /// Puts in the place of a row, where it has a value.
    fn put_in_entry(&mut self, alloc: Global, entry: Option<Entry<'_>>) -> Result<(), AllocError>
        ensures same { self.new.before ≡ self.old.before }
        ensures ok { OnOk result (self.new.now ≡ with_place entry.entry self.old.now) }
    {
        if let Some(entry) = entry {
            let value = entry.value.copied(alloc)?;
            self.set(alloc, entry.place, Some(value))?;
        }
        Ok(())
    }

    /// Gives a place a value, or none. An error says that memory ran out; then the index is as it was.
    fn set(&mut self, alloc: Global, place: u64, value: Option<Value>) -> Result<(), AllocError>
        ensures same { self.new.before ≡ self.old.before }
        ensures ok { OnOk result (self.new.now ≡ set_to self.old.now place value) }
    {
        make_room(&mut self.index, &mut self.log)?;
        let noted = copy_of(alloc, self.index.value(place))?;
        set_place(&mut self.index, place, value);
        self.log.push_reserved(Was {
            key: place,
            value: noted,
        });
        Ok(())
    }
}

impl Revoke for ChildValues {
    ghost rolled_back = { rolled_back };

    ghost kept = { kept };

    fn roll_back(&mut self) {
        take_back(&mut self.index, &mut self.log);
    }

    fn keep(&mut self) {
        self.log.clear();
    }
}

/// The value again, where there is one. An error says that memory ran out.
fn copy_of(alloc: Global, value: Option<&Value>) -> Result<Option<Value>, AllocError>
    ensures { IfOk result (λ copy. copy ≡ option_copied value.entry) }
{
    match value {
        Some(value) => Ok(Some(value.copied(alloc)?)),
        None => Ok(None),
    }
}

/// Memory for a change more and to take it back. An error says that memory ran out, or that there are too many changes.
fn make_room(index: &mut ChildIndex, log: &mut Vec<Was<u64, Value>>) -> Result<(), AllocError>
    requires { vec_len log.old ≤ index.old.spare }
    ensures items { log.new.items ≡ log.old.items }
    ensures len { vec_len log.new ≡ vec_len log.old }
    ensures values { index.new.values ≡ index.old.values }
    ensures held { vec_len log.new ≤ index.new.spare }
    ensures log_room { OnOk result (vec_len log.new < vec_capacity log.new) }
    ensures index_room { OnOk result (vec_len log.new + 2 ≤ index.new.spare) }
{
    if log.len() >= MOST {
        return Err(AllocError);
    }
    log.reserve(1)?;
    index.reserve((log.len() + 2) as u32)?;
    Ok(())
}

/// Gives a place a value, or none. Takes no memory.
#[tactic(auto, using(crate::proofs::PlaceValues::places))]
fn set_place(index: &mut ChildIndex, place: u64, value: Option<Value>)
    requires { 0 < index.old.spare }
    ensures values { index.new.values ≡ set_to index.old.values place value }
    ensures room { index.old.spare ≤ index.new.spare + 1 }
{
    index.remove(place);
    if let Some(value) = value {
        index.add(value, place);
    }
}

/// Takes all changes back, from the last one on.
#[tactic(auto, using(crate::proofs::PlaceValues::last_undone))]
fn take_back(index: &mut ChildIndex, log: &mut Vec<Was<u64, Value>>)
    requires { vec_len log.old ≤ index.old.spare }
    ensures values { index.new.values ≡ undone log.old.items index.old.values }
    ensures done { vec_len log.new ≡ 0 }
{
    while let Some(was) = log.pop() {
        let Was { key, value } = was;
        set_place(index, key, value);
    }
}
