//! What a table means.
ghost use Rattle.std.specs.List.{list_all};
ghost use Rattle.std.specs.Prelude.{◌≡◌, map, true, ℕ};
ghost use Rattle.def_meaning.specs.Joined.{rows_at};
ghost use Rattle.wh_base.specs.Tables.{rows_shown};
ghost use Rattle.wh_table.specs.Kept.{no_part, tables_at};
ghost use Rattle.wh_table.specs.Laws.{Laws};
ghost use Rattle.wh_table.specs.Stored.{base_seen, has_small_numbers};

use crate::table::Table;
use crate::tables::Tables;

/// The laws of a table: what its calls mean for the table of the definitions that it is at an SCN, in the words of
/// `specs/Laws.antt`.
///
/// It does nothing. Its contract says that a table after INSERT, UPDATE or DELETE at an SCN is the one of the definitions
/// after that change from this SCN on, and the one that it was before; and that the rows at the places of tables are those
/// of the base state that they are.
pub fn laws<L>(_table: &Table<L>)
    ensures { Laws }
{}

/// The laws of tables at their SCN: the rows that they show of each table are those of the base state that they are, each
/// rowid there is below 10^15 as the numbers in the rows are, and no table there has partitions.
///
/// It does nothing.
pub fn tables_law<L>(tables: &Tables<L>)
    ensures shows { (n : ℕ) → rows_shown (tables_at tables.now.scn tables.now.tables.items) n ≡ rows_at (base_seen tables.now.scn tables.now.tables.items) n }
    ensures numbered { list_all has_small_numbers (base_seen tables.now.scn tables.now.tables.items) ≡ true }
    ensures parts { map no_part tables.now.tables.items ≡ map (λ t. t.parts) (base_seen tables.now.scn tables.now.tables.items) }
{
    let _ = tables.scn();
}
