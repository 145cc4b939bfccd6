ghost use Rattle.std.specs.Prelude.{◌≡◌, ◌+◌, ◌-◌, ◌<◌, ◌≤◌, ◌^◌, IfOk, IfSome, IsSome, IsSomeAnd, IsTrue, OnErr, OnOk, Some, length, slice_get};
ghost use Rattle.wh_base.specs.Tables.{most_live};
ghost use Rattle.wh_segment.specs.Versions.{is_live, visible_at};
ghost use Rattle.wh_table.specs.Stored.{IsSmallRow, IsStored, begun, deleted, inserted, last_scn, live_count, updated};

use std::alloc::{AllocError, Global};
use std::marker::Model;
use wh_base::reads::Reads;
use wh_base::seq::Seq;
use wh_base::shared::Shared;
use wh_base::tables::TableDef;
use wh_base::values::Value;
use wh_segment::Segment;

/// A table with the versions of its rows, each at its place for good. Contracts see it as a record: its definition, the
/// versions by place, and how many rowids were given. A row's rowid is the next number when it is inserted, from 1.
///
/// There are no partitions yet, so the number of each row's partition is 0; a `PartMap` of `wh_partmap` has its place here.
#[derive(Drop)]
pub struct Table<L> {
    def: Shared<TableDef>,
    segment: Segment<L>,
    given: u64,
    live: u64,
    changed: u64,
}

impl<L> Model for Table<L> {
    ghost use Rattle.std.specs.Prelude.{◌≡◌};
    ghost use Rattle.wh_table.specs.Stored.{Stored, IsHeld};

    ghost Value = { Stored };

    ghost view = { λ t. record { def = t.def; versions = t.segment; given = t.given } };

    ghost invariant = { λ t. IsHeld t.live t.changed (record { def = t.def; versions = t.segment; given = t.given }) };
}

impl<L> Table<L> {
    /// A table without rows. An error says that memory ran out.
    pub fn new(alloc: Global, def: TableDef) -> Result<Table<L>, AllocError>
        ensures { IfOk result (λ t. t ≡ begun def) }
    {
        Ok(Table {
            def: Shared::new(alloc, def)?,
            segment: Segment::new(alloc)?,
            given: 0,
            live: 0,
            changed: 0,
        })
    }

    /// The definition of the table.
    pub fn def(&self) -> &TableDef
        ensures { result.now ≡ self.now.def }
    {
        self.def.get()
    }

    /// How many rows live now.
    pub fn live(&self) -> u64
        ensures count { result ≡ live_count self.now }
        ensures kept { IsStored self.now }
    {
        self.live
    }

    /// How many rowids were given.
    pub fn given(&self) -> u64
        ensures { result ≡ self.now.given }
    {
        self.given
    }

    /// The SCN of the last change: the greatest at which a version was born or died, and 0 where there are none.
    pub fn changed(&self) -> u64
        ensures { result ≡ last_scn self.now.versions }
    {
        self.changed
    }

    /// How many places there are.
    pub fn places(&self) -> u64
        ensures count { result ≡ length self.now.versions }
        ensures few { result < 2 ^ 32 }
    {
        self.segment.len()
    }

    /// A new row from an SCN on. Its rowid is the next number, and it lives at a new place, which is given. After an error,
    /// which says that memory ran out or that there are 2^32 - 1 places, the table is as it was.
    ///
    /// The SCN mustn't be below that of an earlier change, fewer than 262,144 rows may live, and each number in the row must
    /// be below 10^15 in size. No more rowids were given than there are places, so the next is there.
    pub fn insert(&mut self, values: Seq<Value>, scn: u64) -> Result<u64, AllocError>
        requires after { last_scn self.old.versions ≤ scn }
        requires room { live_count self.old < most_live }
        requires small { IsSmallRow values }
        ensures place { IfOk result (λ place. place ≡ length self.old.versions) }
        ensures few { OnOk result (length self.old.versions < 2 ^ 32 - 1) }
        ensures ok { OnOk result (self.new ≡ inserted scn values self.old) }
        ensures err { OnErr result (self.new ≡ self.old) }
    {
        let place = self.segment.append(self.given + 1, 0, values, scn)?;
        // Places stay fewer than 2^32, and so do the rowids given.
        let _places = self.segment.len();
        self.given += 1;
        self.live += 1;
        self.changed = scn;
        Ok(place)
    }

    /// Takes the row at a place away from an SCN on. After an error, which says that memory ran out, the table is as it was.
    ///
    /// The row must live now, and the SCN mustn't be below that of an earlier change.
    pub fn delete(&mut self, place: u64, scn: u64) -> Result<(), AllocError>
        requires after { last_scn self.old.versions ≤ scn }
        requires lives { IsSomeAnd (slice_get self.old.versions place) (λ v. IsTrue (is_live v)) }
        ensures ok { OnOk result (self.new ≡ deleted scn place self.old) }
        ensures err { OnErr result (self.new ≡ self.old) }
    {
        self.segment.end(place, scn)?;
        self.live -= 1;
        self.changed = scn;
        Ok(())
    }

    /// New values in the row at a place from an SCN on. The row keeps its rowid and has a new place from then on, which is
    /// given. After an error, which says that memory ran out or that there are 2^32 - 1 places, the table is as it was.
    ///
    /// The row must live now, each number among the values must be below 10^15 in size, and the SCN mustn't be below that
    /// of an earlier change.
    pub fn update(&mut self, place: u64, values: Seq<Value>, scn: u64) -> Result<u64, AllocError>
        requires after { last_scn self.old.versions ≤ scn }
        requires lives { IsSomeAnd (slice_get self.old.versions place) (λ v. IsTrue (is_live v)) }
        requires small { IsSmallRow values }
        ensures place { IfOk result (λ place. place ≡ length self.old.versions) }
        ensures few { OnOk result (length self.old.versions < 2 ^ 32 - 1) }
        ensures ok { OnOk result (self.new ≡ updated scn place values self.old) }
        ensures err { OnErr result (self.new ≡ self.old) }
    {
        let new_place = self.segment.replace(place, values, scn)?;
        // Places stay fewer than 2^32.
        let _places = self.segment.len();
        self.changed = scn;
        Ok(new_place)
    }

    /// Whether the row at a place is there at an SCN with the values of this place. Never past the last place.
    pub fn visible(&self, place: u64, scn: u64) -> bool
        ensures { result ≡ visible_at self.now.versions place scn }
    {
        self.segment.visible(place, scn)
    }

    /// The rowid of the row at a place. Raises no counter.
    pub fn rowid(&self, place: u64) -> u64
        requires { place < length self.now.versions }
        ensures { IfSome (slice_get self.now.versions place) (λ v. result ≡ v.rowid) }
    {
        self.segment.rowid(place)
    }

    /// The values of the row at a place, which mustn't be purged. Raises the counter by one.
    pub fn row(&self, place: u64, reads: &mut Reads<L>) -> &Seq<Value>
        requires there { IsSomeAnd (slice_get self.now.versions place) (λ v. IsSome v.values) }
        requires room { reads.old < 2 ^ 64 - 1 }
        ensures values { IfSome (slice_get self.now.versions place) (λ v. v.values ≡ Some result.now) }
        ensures raised { reads.new ≡ reads.old + 1 }
    {
        self.segment.row(place, reads)
    }

    /// The same table, which shares the definition and the chunks of its versions: it costs the list of chunks alone. An
    /// error says that memory ran out.
    pub fn copy(&self) -> Result<Table<L>, AllocError>
        ensures { IfOk result (λ t. t ≡ self.now) }
    {
        Ok(Table {
            def: self.def.share()?,
            segment: self.segment.copy()?,
            given: self.given,
            live: self.live,
            changed: self.changed,
        })
    }
}
