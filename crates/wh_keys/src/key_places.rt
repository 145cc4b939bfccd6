ghost use Rattle.std.specs.Prelude.{◌≡◌, ◌+◌, ◌<◌, ◌≤◌, IfOk, OnOk, vec_capacity, vec_len};
ghost use Rattle.std.specs.FinMap as map;
ghost use Rattle.wh_base.specs.Lists.{where_true};
ghost use Rattle.wh_keys.specs.Indexes.{coming, going, keys_changed, with_keys, without_keys};
ghost use Rattle.wh_keys.specs.Made.{with_entry, without_entry};
ghost use Rattle.wh_keys.specs.Undoing.{kept, rolled_back, set_to, undone};

use crate::entry::{Entry, entry_of};
use crate::revoke::Revoke;
use crate::was::Was;
use std::alloc::{AllocError, Global};
use std::marker::Model;
use wh_base::copied::Copied;
use wh_base::values::Value;
use wh_dml::RowChange;
use wh_keyindex::KeyIndex;

/// How many changes of a block an index keeps at the most.
const MOST: usize = 0xffff_fff0;

/// The index of a key, with a note of each change that the open block made: contracts see the index as it is now and as it
/// was before the block. It always has the memory to be as it was again.
#[derive(Drop)]
pub struct KeyPlaces {
    index: KeyIndex,
    log: Vec<Was<Value, u64>>,
}

impl Model for KeyPlaces {
    ghost use Rattle.std.specs.Prelude.{◌≤◌, vec_len};
    ghost use Rattle.wh_keys.specs.Coded.{HeldPlaces, held_places_code};
    ghost use Rattle.wh_keys.specs.Undoing.{undone};

    ghost Value = { HeldPlaces };

    ghost coded = { held_places_code };

    ghost view = { λ k. record { now = k.index.places; before = undone k.log.items k.index.places } };

    ghost invariant = { λ k. vec_len k.log ≤ k.index.spare };
}

impl KeyPlaces {
    /// No keys, and no block. Takes no memory.
    pub fn new(alloc: Global) -> KeyPlaces
        ensures { result ≡ record { now = map.empty; before = map.empty } }
    {
        KeyPlaces {
            index: KeyIndex::new(alloc),
            log: Vec::new(alloc),
        }
    }

    /// The place of a key; `None` exactly where the key isn't there.
    pub fn find(&self, key: &Value) -> Option<u64>
        ensures { result ≡ map.get self.now.now key.now }
    {
        self.index.find(key)
    }

    /// The index after changes of rows: first the keys that go, then those that come. It gives `false` where a key that comes
    /// is there already; the index is then changed in part. An error says that memory ran out, or that the block has 2^32 - 16
    /// changes; the index may then be changed in part, too.
    pub fn change(
        &mut self,
        alloc: Global,
        column: u32,
        changes: &[RowChange],
    ) -> Result<bool, AllocError>
        ensures same { self.new.before ≡ self.old.before }
        ensures made { IfOk result (λ made. keys_changed column changes.now self.old.now ≡ where_true made self.new.now) }
    {
        self.take_out_all(alloc, column, changes)?;
        let made = self.put_in_all(alloc, column, changes)?;
        Ok(made)
    }

    /// Takes out the keys that go. After an error some may be out.
    #[tactic(auto, using(crate::proofs::Turns::goes))]
    fn take_out_all(
        &mut self,
        alloc: Global,
        column: u32,
        changes: &[RowChange],
    ) -> Result<(), AllocError>
        ensures same { self.new.before ≡ self.old.before }
        ensures ok { OnOk result (self.new.now ≡ without_keys (going column changes.now) self.old.now) }
    {
        for change in changes {
            self.take_out_entry(alloc, entry_of(column, &change.old))?;
        }
        Ok(())
    }

    /// Puts in the keys that come, up to one that is there already: then it gives `false`. After an error some may be in.
    #[tactic(auto, using(crate::proofs::Turns::comes))]
    fn put_in_all(
        &mut self,
        alloc: Global,
        column: u32,
        changes: &[RowChange],
    ) -> Result<bool, AllocError>
        ensures same { self.new.before ≡ self.old.before }
        ensures made { IfOk result (λ made. with_keys (coming column changes.now) self.old.now ≡ where_true made self.new.now) }
    {
        for change in changes {
            if !self.put_in_entry(alloc, entry_of(column, &change.new))? {
                return Ok(false);
            }
        }
        Ok(true)
    }

    /// Takes out the key of a row, where it has one.
    fn take_out_entry(&mut self, alloc: Global, entry: Option<Entry<'_>>) -> Result<(), AllocError>
        ensures same { self.new.before ≡ self.old.before }
        ensures ok { OnOk result (self.new.now ≡ without_entry entry.entry self.old.now) }
    {
        if let Some(entry) = entry {
            self.take_out(alloc, entry.value)?;
        }
        Ok(())
    }

    /// Puts in the key of a row, where it has one; `false` where the key is there already.
    fn put_in_entry(&mut self, alloc: Global, entry: Option<Entry<'_>>) -> Result<bool, AllocError>
        ensures same { self.new.before ≡ self.old.before }
        ensures made { IfOk result (λ made. with_entry entry.entry self.old.now ≡ where_true made self.new.now) }
    {
        match entry {
            Some(entry) => {
                if self.find(entry.value).is_some() {
                    return Ok(false);
                }
                self.put_in(alloc, entry.value, entry.place)?;
                Ok(true)
            }
            None => Ok(true),
        }
    }

    /// Takes a key out. An error says that memory ran out; then the index is as it was.
    fn take_out(&mut self, alloc: Global, key: &Value) -> Result<(), AllocError>
        ensures same { self.new.before ≡ self.old.before }
        ensures ok { OnOk result (self.new.now ≡ map.remove self.old.now key.now) }
    {
        make_room(&mut self.index, &mut self.log)?;
        let noted = key.copied(alloc)?;
        let value = self.index.remove(key);
        self.log.push_reserved(Was { key: noted, value });
        Ok(())
    }

    /// Gives a key its place. An error says that memory ran out; then the index is as it was.
    fn put_in(&mut self, alloc: Global, key: &Value, place: u64) -> Result<(), AllocError>
        ensures same { self.new.before ≡ self.old.before }
        ensures ok { OnOk result (self.new.now ≡ map.insert self.old.now key.now place) }
    {
        make_room(&mut self.index, &mut self.log)?;
        let noted = key.copied(alloc)?;
        let kept = key.copied(alloc)?;
        let value = self.index.find(key);
        self.log.push_reserved(Was { key: noted, value });
        self.index.insert(kept, place);
        Ok(())
    }
}

impl Revoke for KeyPlaces {
    ghost rolled_back = { rolled_back };

    ghost kept = { kept };

    fn roll_back(&mut self) {
        take_back(&mut self.index, &mut self.log);
    }

    fn keep(&mut self) {
        self.log.clear();
    }
}

/// Memory for a change more and to take it back. An error says that memory ran out, or that there are too many changes.
fn make_room(index: &mut KeyIndex, log: &mut Vec<Was<Value, u64>>) -> Result<(), AllocError>
    requires { vec_len log.old ≤ index.old.spare }
    ensures items { log.new.items ≡ log.old.items }
    ensures len { vec_len log.new ≡ vec_len log.old }
    ensures places { index.new.places ≡ index.old.places }
    ensures held { vec_len log.new ≤ index.new.spare }
    ensures log_room { OnOk result (vec_len log.new < vec_capacity log.new) }
    ensures index_room { OnOk result (vec_len log.new + 2 ≤ index.new.spare) }
{
    if log.len() >= MOST {
        return Err(AllocError);
    }
    log.reserve(1)?;
    index.reserve((log.len() + 2) as u32)?;
    Ok(())
}

/// Gives a key what it had. Takes no memory.
fn restore(index: &mut KeyIndex, was: Was<Value, u64>)
    requires { 0 < index.old.spare }
    ensures places { index.new.places ≡ set_to index.old.places was.key was.value }
    ensures room { index.old.spare ≤ index.new.spare + 1 }
{
    let Was { key, value } = was;
    match value {
        Some(place) => index.insert(key, place),
        None => {
            index.remove(&key);
        }
    }
}

/// Takes all changes back, from the last one on.
#[tactic(auto, using(crate::proofs::Places::last_undone))]
fn take_back(index: &mut KeyIndex, log: &mut Vec<Was<Value, u64>>)
    requires { vec_len log.old ≤ index.old.spare }
    ensures places { index.new.places ≡ undone log.old.items index.old.places }
    ensures done { vec_len log.new ≡ 0 }
{
    while let Some(was) = log.pop() {
        restore(index, was);
    }
}
