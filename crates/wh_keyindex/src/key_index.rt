ghost use Rattle.std.specs.Prelude.{◌≡◌, ◌-◌, ◌<◌, ◌≤◌, IsOk, OnErr, OnOk, max, not};
ghost use Rattle.std.specs.FinMap as map;
ghost use Rattle.wh_keyindex.specs.Marks.{is_marked, unmarked};

use crate::marks::is_marked;
use indexmap::IndexMap;
use std::alloc::{AllocError, Global};
use std::marker::Model;
use wh_base::seq::Seq;
use wh_base::values::Value;

/// The places of keys: an exact map from keys, which are values, to places of a table. A look-up is by hash and reads no
/// row (an index as SQL databases have it for a primary key). Contracts see the map and for how many more keys there is
/// memory.
#[derive(Drop)]
pub struct KeyIndex {
    places: IndexMap<Value, u64>,
    room: u64,
}

impl Model for KeyIndex {
    ghost use Rattle.std.specs.FinMap as map;
    ghost use Rattle.wh_keyindex.specs.Keyed.{Keyed, keyed_code};

    ghost Value = { Keyed };

    ghost coded = { keyed_code };

    ghost use Rattle.wh_keyindex.specs.Kept.{IsKept};

    ghost view = { λ k. record { places = map.from_entries k.places.entries; spare = k.room } };

    ghost invariant = { IsKept };
}

impl KeyIndex {
    /// No keys, and no memory for keys. Takes no memory.
    pub fn new(alloc: Global) -> KeyIndex
        ensures { result ≡ record { places = map.empty; spare = 0 } }
    {
        KeyIndex {
            places: IndexMap::new(alloc),
            room: 0,
        }
    }

    /// How many keys there are.
    #[tactic(auto, using(crate::proofs::Placed::placed))]
    pub fn len(&self) -> u64
        ensures { result ≡ map.len self.now.places }
    {
        self.places.len() as u64
    }

    /// Makes memory for so many keys more. An error says that memory ran out: it never comes where there was memory enough,
    /// and after it the index is as it was.
    pub fn reserve(&mut self, keys: u32) -> Result<(), AllocError>
        ensures ok { OnOk result (self.new ≡ record self.old { spare = max self.old.spare keys }) }
        ensures enough { keys ≤ self.old.spare → IsOk result }
        ensures err { OnErr result (self.new ≡ self.old) }
    {
        let room = self.room.max(keys as u64);
        self.places.reserve(room as usize)?;
        self.room = room;
        Ok(())
    }

    /// Gives a key its place, in the stead of the one that it had. Takes no memory: there must be memory for a key more.
    #[tactic(auto, using(crate::proofs::Placed::placed))]
    pub fn insert(&mut self, key: Value, place: u64)
        requires { 0 < self.old.spare }
        ensures { self.new ≡ record self.old { places = map.insert self.old.places key place; spare = self.old.spare - 1 } }
    {
        let Ok(_) = self.places.insert(key, place) else {
            unreachable!();
        };
        self.room -= 1;
    }

    /// The place of a key; `None` exactly where the key isn't there.
    #[tactic(auto, using(crate::proofs::Placed::placed))]
    pub fn find(&self, key: &Value) -> Option<u64>
        ensures { result ≡ map.get self.now.places key.now }
    {
        match self.places.get(key) {
            Some(place) => Some(*place),
            None => None,
        }
    }

    /// Takes a key out and gives the place that it had; `None` exactly where the key isn't there. Its memory isn't counted
    /// as memory for a key more.
    #[tactic(auto, using(crate::proofs::Placed::placed))]
    pub fn remove(&mut self, key: &Value) -> Option<u64>
        ensures place { result ≡ map.get self.old.places key.now }
        ensures rest { self.new ≡ record self.old { places = map.remove self.old.places key.now } }
    {
        self.places.swap_remove(key)
    }

    /// Takes out the keys whose place is marked. A place past the end of the list isn't marked. It goes once over the index.
    #[tactic(auto, using(crate::proofs::Placed::placed))]
    pub fn drop_places(&mut self, gone: &Seq<bool>)
        ensures { self.new ≡ record self.old { places = unmarked gone.now self.old.places } }
    {
        self.places.retain(
            |_key: &Value, place: &mut u64| -> bool
                ensures { (result ≡ not (is_marked gone.entry.now place.old)) × (place.new ≡ place.old) }
            { !is_marked(gone, *place) },
        );
    }
}
