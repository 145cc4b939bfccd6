ghost use Rattle.std.specs.Prelude.{◌≡◌, IfOk};

use std::alloc::{AllocError, Global};
use wh_base::copied::Copied;
use wh_base::seq::Seq;
use wh_base::tables::{ColumnDef, TableDef};

/// The same definition of a table. An error says that memory ran out.
pub fn copied_def(alloc: Global, def: &TableDef) -> Result<TableDef, AllocError>
    ensures { IfOk result (λ d. d ≡ def.now) }
{
    // The name last: an error drops what was copied before, and a name takes the most code to drop.
    Ok(TableDef {
        columns: copied_columns(alloc, def.columns.as_slice())?,
        keys: copied_items(alloc, def.keys.as_slice())?,
        foreign: copied_items(alloc, def.foreign.as_slice())?,
        name: def.name.copied(alloc)?,
        primary: def.primary,
        part_key: def.part_key,
        movement: def.movement,
    })
}

/// The same columns. An error says that memory ran out.
fn copied_columns(alloc: Global, columns: &[ColumnDef]) -> Result<Seq<ColumnDef>, AllocError>
    ensures { IfOk result (λ copies. copies ≡ columns.now) }
{
    let mut copies = Seq::new(alloc);
    for column in columns {
        copies.push(ColumnDef {
            name: column.name.copied(alloc)?,
            kind: column.kind,
            not_null: column.not_null,
        })?;
    }
    Ok(copies)
}

/// The same items. An error says that memory ran out.
fn copied_items<T: Copy + Drop>(alloc: Global, items: &[T]) -> Result<Seq<T>, AllocError>
    ensures { IfOk result (λ copies. copies ≡ items.now) }
{
    let mut copies = Seq::new(alloc);
    for item in items {
        copies.push(*item)?;
    }
    Ok(copies)
}
