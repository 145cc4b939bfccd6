ghost use Rattle.std.specs.Prelude.{◌≡◌, None, Some, IsSome, OnOk, OnErr};
ghost use Rattle.std.specs.FinMap as map;
ghost use Rattle.wh_register.specs.Register.{lesser_point, point_over, purge_point, room_over, with_point};

use std::alloc::{AllocError, Global};
use std::collections::BTreeMap;
use std::marker::Model;
use wh_base::seq::Seq;

/// The tables in the FROM of a view, and its point, which is the SCN of its last refresh, where it is registered.
#[derive(Drop)]
pub struct Room {
    pub tables: Seq<u32>,
    pub point: Option<u64>,
}

impl Room {
    /// The point of the view, where it is registered and on this table.
    fn point_over(&self, table: u32) -> Option<u64>
        ensures { result ≡ point_over table self.now }
    {
        if self.tables.as_slice().contains(&table) {
            self.point
        } else {
            None
        }
    }
}

/// The views for which room was made, each with its tables and, where it is registered, its point (Data Warehousing
/// Guide; to make the room before is this project's own). Contracts see it as a map from the number of a view.
#[derive(Drop)]
pub struct Register {
    alloc: Global,
    rooms: BTreeMap<u64, Room>,
}

impl Model for Register {
    ghost use Rattle.std.specs.Coded.{coded_ℕ};
    ghost use Rattle.std.specs.FinMap as map;
    ghost use Rattle.wh_register.specs.contracts.register.Room.{the_row};
    ghost use Rattle.wh_register.specs.Register.{Rooms};

    ghost Value = { Rooms };

    ghost coded = { map.code coded_ℕ the_row.coded };

    ghost view = { λ r. map.from_entries r.rooms.entries };
}

impl Register {
    /// No views. Takes no memory.
    pub fn new(alloc: Global) -> Register
        ensures { result ≡ map.empty }
    {
        Register {
            alloc,
            rooms: BTreeMap::new(alloc),
        }
    }

    /// Makes room for a view over these tables, by their numbers, and doesn't register it. An error says that memory
    /// ran out; then the register is as it was. Where room was made for the view before, this takes its place.
    #[tactic(auto, using(crate::proofs::Rooms::changes))]
    pub fn add(&mut self, view: u64, tables: &Seq<u32>) -> Result<(), AllocError>
        ensures ok { OnOk result (self.new ≡ map.insert self.old view (room_over tables.now)) }
        ensures err { OnErr result (self.new ≡ self.old) }
    {
        let copy = Vec::from_slice(self.alloc, tables.as_slice())?;
        let room = Room {
            tables: Seq::from_vec(copy)?,
            point: None,
        };
        self.rooms.insert(view, room)?;
        Ok(())
    }

    /// Registers a view at a point, which is an SCN. Takes no memory. Room must have been made for the view.
    #[tactic(auto, using(crate::proofs::Rooms::changes))]
    pub fn set(&mut self, view: u64, point: u64)
        requires { IsSome (map.get self.old view) }
        ensures { self.new ≡ with_point self.old view (Some point) }
    {
        if let Some(room) = self.rooms.get_mut(&view) {
            room.point = Some(point);
        }
    }

    /// Ends the registration of a view and keeps its room; does nothing where no room was made for it.
    #[tactic(auto, using(crate::proofs::Rooms::changes))]
    pub fn take_off(&mut self, view: u64)
        ensures { self.new ≡ with_point self.old view None }
    {
        if let Some(room) = self.rooms.get_mut(&view) {
            room.point = None;
        }
    }

    /// The SCN up to which the log of a table may be purged: the least point of the registered views on the table, or
    /// `now` where there is none. So no registered view loses a row that it hasn't seen (Data Warehousing Guide).
    #[tactic(auto, using(crate::proofs::Rooms::leasts))]
    pub fn purge_point(&self, table: u32, now: u64) -> u64
        ensures { result ≡ purge_point (map.values self.now) table now }
    {
        let mut least = None;
        for room in self.rooms.values() {
            least = lesser(least, room.point_over(table));
        }
        least.unwrap_or(now)
    }
}

/// The lesser of two points, of which either may be missing.
fn lesser(first: Option<u64>, second: Option<u64>) -> Option<u64>
    ensures { result ≡ lesser_point first second }
{
    match (first, second) {
        (Some(a), Some(b)) => Some(if b < a { b } else { a }),
        (None, point) => point,
        (point, None) => point,
    }
}
