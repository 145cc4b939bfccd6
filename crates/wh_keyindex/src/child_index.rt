ghost use Rattle.std.specs.Prelude.{◌≡◌, ◌-◌, ◌<◌, ◌≤◌, ◌^◌, IsOk, None, OnErr, OnOk, Some, max, slice_get};
ghost use Rattle.std.specs.Option.{option_copied};
ghost use Rattle.std.specs.FinMap as map;
ghost use Rattle.std.specs.Ordering.{eq_by_cmp};
ghost use Rattle.indexmap.specs.IndexMap as index;
ghost use Rattle.wh_base.specs.Tables.{value_at};
ghost use Rattle.wh_base.specs.Values.{value_cmp};
ghost use Rattle.wh_keyindex.specs.Children.{places_with, unmarked_places};
ghost use Rattle.wh_keyindex.specs.Tied.{count_in};

use crate::marks::is_marked;
use indexmap::IndexMap;
use std::alloc::{AllocError, Global};
use std::marker::Model;
use wh_base::seq::Seq;
use wh_base::values::Value;

/// The values of a foreign key at the places of a child table. A place without a value, or with NULL, isn't there. How many
/// places have a value is found by hash, so that a parent row can be checked without reading the child table. Contracts
/// see the map from places to values and for how many more places there is memory.
///
/// A value once added is kept with its count, also where no place has it any more: so a place needs to know its number
/// alone, and `add` takes no memory.
#[derive(Drop)]
pub struct ChildIndex {
    numbers: IndexMap<u64, u64>,
    counts: IndexMap<Value, u64>,
    room: u64,
}

impl Model for ChildIndex {
    ghost use Rattle.wh_keyindex.specs.Children.{Children, children_code};

    ghost Value = { Children };

    ghost coded = { children_code };

    ghost use Rattle.wh_keyindex.specs.Tied.{shown, IsTied};

    ghost view = { shown };

    ghost invariant = { IsTied };
}

impl ChildIndex {
    /// No places, and no memory for places. Takes no memory.
    #[tactic(auto, using(crate::proofs::Numbered::after))]
    pub fn new(alloc: Global) -> ChildIndex
        ensures { result ≡ record { values = map.empty; spare = 0 } }
    {
        ChildIndex {
            numbers: IndexMap::new(alloc),
            counts: IndexMap::new(alloc),
            room: 0,
        }
    }

    /// How many places there are.
    #[tactic(auto, using(crate::proofs::Numbered::after))]
    pub fn len(&self) -> u64
        ensures len { result ≡ map.len self.now.values }
        ensures few { result < 2 ^ 63 }
    {
        self.numbers.len() as u64
    }

    /// Makes memory for so many places more. An error says that memory ran out: it never comes where there was memory
    /// enough, and after it the index is as it was.
    #[tactic(auto, using(crate::proofs::Numbered::after))]
    pub fn reserve(&mut self, places: u32) -> Result<(), AllocError>
        ensures ok { OnOk result (self.new ≡ record self.old { spare = max self.old.spare places }) }
        ensures enough { places ≤ self.old.spare → IsOk result }
        ensures err { OnErr result (self.new ≡ self.old) }
    {
        let room = self.room.max(places as u64);
        self.numbers.reserve(room as usize)?;
        self.counts.reserve(room as usize)?;
        self.room = room;
        Ok(())
    }

    /// Gives a place its value. Takes no memory: there must be memory for a place more, and the place must not be there.
    #[tactic(auto, using(crate::proofs::Numbered::after))]
    pub fn add(&mut self, value: Value, place: u64)
        requires room { 0 < self.old.spare }
        requires absent { map.get self.old.values place ≡ None }
        ensures { self.new ≡ record self.old { values = map.insert self.old.values place value; spare = self.old.spare - 1 } }
    {
        let count = self.count(&value);
        prove!(count <= self.len());
        let Ok((number, _)) = self.counts.insert_full(value, count + 1) else {
            unreachable!();
        };
        let Ok(_) = self.numbers.insert(place, number as u64) else {
            unreachable!();
        };
        self.room -= 1;
    }

    /// Takes a place out; does nothing where it isn't there. Its memory isn't counted as memory for a place more.
    #[tactic(auto, using(crate::proofs::Numbered::after))]
    pub fn remove(&mut self, place: u64)
        ensures { self.new ≡ record self.old { values = map.remove self.old.values place } }
    {
        if let Some(number) = self.numbers.swap_remove(&place) {
            count_down(&mut self.counts, number);
        }
    }

    /// The value of a place; `None` exactly where the place isn't there.
    #[tactic(auto, using(crate::proofs::Numbered::after))]
    pub fn value(&self, place: u64) -> Option<&Value>
        ensures { option_copied result ≡ map.get self.now.values place }
    {
        match self.numbers.get(&place) {
            Some(number) => known_value(&self.counts, *number),
            None => None,
        }
    }

    /// How many places have the value.
    #[tactic(auto, using(crate::proofs::Numbered::after))]
    pub fn count(&self, value: &Value) -> u64
        ensures { result ≡ places_with value.now self.now.values }
    {
        match self.counts.get(value) {
            Some(count) => *count,
            None => 0,
        }
    }

    /// Takes out the places that are marked. A place past the end of the list isn't marked. It goes once over the list.
    #[tactic(auto, using(crate::proofs::Numbered::gone))]
    pub fn drop_places(&mut self, gone: &Seq<bool>)
        ensures { self.new ≡ record self.old { values = unmarked_places gone.now self.old.values } }
    {
        for place in 0..gone.len() {
            if is_marked(gone, place as u64) {
                self.remove(place as u64);
            }
        }
    }
}

/// The value with this number.
fn known_value(counts: &IndexMap<Value, u64>, number: u64) -> Option<&Value>
    ensures { option_copied result ≡ slice_get (index.keys counts.now) number }
{
    match counts.get_index(number as usize) {
        Some((value, _)) => Some(value),
        None => None,
    }
}

/// Counts one place less with the value of this number.
fn count_down(counts: &mut IndexMap<Value, u64>, number: u64)
    requires known { number < index.index_map_len counts.old }
    requires once { index.IsUnique (eq_by_cmp value_cmp) counts.old }
    requires counted { 0 < count_in counts.old (value_at (index.keys counts.old) number) }
    ensures values { index.keys counts.new ≡ index.keys counts.old }
    ensures counted { let value = value_at (index.keys counts.old) number in index.Updates (eq_by_cmp value_cmp) counts.old counts.new value (Some (count_in counts.old value - 1)) }
    ensures room { index.spare counts.new ≡ index.spare counts.old }
{
    if let Some(count) = counts.get_index_mut(number as usize) {
        *count -= 1;
    }
}
