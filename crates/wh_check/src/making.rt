//! The changes of a statement, made in the tables.
ghost use Rattle.std.specs.List.{list_all};
ghost use Rattle.std.specs.Prelude.{◌≡◌, ◌+◌, ◌<◌, ◌≤◌, IfSome, IsTrue, OnOk, length, slice_get};
ghost use Rattle.wh_base.specs.Tables.{most_live};
ghost use Rattle.wh_check.specs.Making.{CanMake, inserts_in, is_small_change};
ghost use Rattle.wh_dml.specs.Placed.{ArePlaced, all_made, made};
ghost use Rattle.wh_table.specs.Kept.{with_change};
ghost use Rattle.wh_table.specs.Stored.{live_count};

use std::alloc::AllocError;
use wh_dml::RowChange;
use wh_table::Tables;

/// One change of a row.
fn make_change<L>(tables: &mut Tables<L>, table: u32, change: RowChange) -> Result<(), AllocError>
    requires there { table < length tables.old.tables.items }
    requires fits { IfSome (slice_get tables.old.tables.items table) (λ t. CanMake t change) }
    ensures scn { tables.new.scn ≡ tables.old.scn }
    ensures made { OnOk result (tables.new.tables.items ≡ with_change table (made tables.old.scn change) tables.old.tables.items) }
{
    let RowChange { rowid: _, old, new } = change;
    match (old, new) {
        (None, Some(row)) => {
            tables.insert(table, row.values)?;
        }
        (Some(row), None) => {
            tables.delete(table, row.place)?;
        }
        (Some(old), Some(new)) => {
            tables.update(table, old.place, new.values)?;
        }
        (None, None) => {}
    }
    Ok(())
}

/// Changes of rows of a table, from the SCN of the tables on. After an error, which says that memory ran out or that the
/// table has no places left, a part of them is made.
#[tactic(auto, using(crate::proofs::Made::changing))]
pub(crate) fn make_changes<L>(
    tables: &mut Tables<L>,
    table: u32,
    changes: Vec<RowChange>,
) -> Result<(), AllocError>
    requires there { table < length tables.old.tables.items }
    requires placed { IfSome (slice_get tables.old.tables.items table) (λ t. ArePlaced tables.old.scn t changes.items) }
    requires room { IfSome (slice_get tables.old.tables.items table) (λ t. live_count t + inserts_in changes.items ≤ most_live) }
    requires small { IsTrue (list_all is_small_change changes.items) }
    ensures scn { tables.new.scn ≡ tables.old.scn }
    ensures made { OnOk result (tables.new.tables.items ≡ with_change table (all_made tables.old.scn changes.items) tables.old.tables.items) }
{
    for change in changes {
        make_change(tables, table, change)?;
    }
    Ok(())
}
