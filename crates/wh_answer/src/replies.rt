ghost use Rattle.def_meaning.specs.Meaning.{in_order};
ghost use Rattle.std.specs.Prelude.{◌≡◌, IfOk, map};
ghost use Rattle.wh_answer.specs.Answered.{refusal};

use std::alloc::{AllocError, Global};
use wh_base::copied::Copied;
use wh_base::queries::OrderKey;
use wh_base::replies::{Refusal, Refused, Reply};
use wh_base::seq::Seq;
use wh_base::values::{Rows, Value};
use wh_base::views::{ViewEntry, ViewRows};
use wh_group::sort_rows;

/// The refusal with this code of a command that read nothing.
pub fn refused(code: Refusal) -> Reply
    ensures { result ≡ refusal code }
{
    Reply::Refuse(Refused {
        code,
        at: None,
        read: 0,
    })
}

/// The rows of these entries in the order of an answer with these keys of ORDER BY. An error says that memory ran out.
pub fn ordered_rows(
    alloc: Global,
    order: &[OrderKey],
    entries: &ViewRows,
) -> Result<Rows, AllocError>
    ensures { IfOk result (λ rows. rows ≡ in_order order.now (map (λ e. e.row) entries.now)) }
{
    let rows = rows_of(alloc, entries.as_slice())?;
    sort_rows(order, rows)
}

// The rows of these entries, in their order.
fn rows_of(alloc: Global, entries: &[ViewEntry]) -> Result<Vec<Seq<Value>>, AllocError>
    ensures { IfOk result (λ rows. rows.items ≡ map (λ e. e.row) entries.now) }
{
    let mut rows = Vec::with_capacity(alloc, entries.len())?;
    for entry in entries {
        rows.push(row_of(alloc, entry)?)?;
    }
    Ok(rows)
}

// The row of an entry.
fn row_of(alloc: Global, entry: &ViewEntry) -> Result<Seq<Value>, AllocError>
    ensures { IfOk result (λ row. row ≡ entry.now.row) }
{
    entry.row.copied(alloc)
}
