ghost use Rattle.std.specs.Prelude.{◌≡◌, ◌+◌, ◌-◌, ◌<◌, ◌≤◌, ◌^◌, ◌↔◌, List, Option, ℕ, length, slice_get, IsTrue, IsSome, IfSome};
ghost use Rattle.wh_base.specs.Tables.{Places, places_of, place_of, live_rows, HaveRowids, AreSmall, most_live};
ghost use Rattle.wh_base.specs.declared.tables.Part.{Part};

use crate::reads::Reads;
use crate::seq::Seq;
use crate::tables::Part;
use crate::values::Value;

/// The tables of a base state, read row by row. A row's values are had only through a counter, which each reading
/// raises by one. A table's number is its place in the order of creation, from 0; a place of a table has a row or none.
pub trait RowsOf<L> {
    /// The tables, in the order of creation, each as its places.
    ghost tables: { Self → List Places };

    /// The column by which a table is partitioned, and none without partitions.
    ghost keys: { Self → List (Option ℕ) };

    /// The partitions of each table, from the lowest on, and none without partitions.
    ghost partitions: { Self → List (List Part) };

    /// At most 262,144 places of a table have a row.
    ghost few: { (rows : Self) (table : ℕ) → length (live_rows (places_of (tables rows) table)) ≤ most_live };

    /// The rowids of a table differ.
    ghost differ: { (rows : Self) (table : ℕ) → HaveRowids (live_rows (places_of (tables rows) table)) };

    /// Each number in a row is below 10^15 in size.
    ghost small: { (rows : Self) (table : ℕ) → AreSmall (live_rows (places_of (tables rows) table)) };

    /// How many places the table has.
    fn places(&self, table: u32) -> u64
        requires { table < length (tables self.now) }
        ensures { result ≡ length (places_of (tables self.now) table) };

    /// Whether the place has a row.
    fn lives(&self, table: u32, place: u64) -> bool
        requires table { table < length (tables self.now) }
        requires place { place < length (places_of (tables self.now) table) }
        ensures { IsTrue result ↔ IsSome (place_of (tables self.now) table place) };

    /// The rowid of the row at a place, and any number where it has none. Raises no counter.
    fn rowid(&self, table: u32, place: u64) -> u64
        requires table { table < length (tables self.now) }
        requires place { place < length (places_of (tables self.now) table) }
        ensures { IfSome (place_of (tables self.now) table place) (λ row. result ≡ row.rowid) };

    /// The number of the partition of the row at a place, 0 without partitions, and any number where the place has no
    /// row. Raises no counter.
    fn part(&self, table: u32, place: u64) -> u64
        requires table { table < length (tables self.now) }
        requires place { place < length (places_of (tables self.now) table) }
        ensures { IfSome (place_of (tables self.now) table place) (λ row. result ≡ row.mark) };

    /// The column by which the table is partitioned, and `None` without partitions.
    fn part_key(&self, table: u32) -> Option<u32>
        requires { table < length (tables self.now) }
        ensures { slice_get (keys self.now) table ≡ Some result };

    /// The partitions of the table, from the lowest on.
    fn parts(&self, table: u32) -> &Seq<Part>
        requires { table < length (tables self.now) }
        ensures { slice_get (partitions self.now) table ≡ Some result.now };

    /// The values of the row at a place. Raises the counter by one.
    fn row(&self, table: u32, place: u64, reads: &mut Reads<L>) -> &Seq<Value>
        requires table { table < length (tables self.now) }
        requires lives { IsSome (place_of (tables self.now) table place) }
        requires room { reads.old < 2 ^ 64 - 1 }
        ensures values { IfSome (place_of (tables self.now) table place) (λ row. result.now ≡ row.values) }
        ensures raised { reads.new ≡ reads.old + 1 };
}
