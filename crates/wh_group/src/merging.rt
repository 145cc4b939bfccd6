ghost use Rattle.def_meaning.specs.Joined.{column_value};
ghost use Rattle.std.specs.Prelude.{◌≡◌, ◌≤◌, ◌++◌, [], length, List, IfOk, OnOk};
ghost use Rattle.wh_base.specs.declared.queries.StarQuery.{StarQuery};
ghost use Rattle.wh_base.specs.declared.tables.RowAt.{RowAt};
ghost use Rattle.wh_group.specs.Tallies.{AreSmallTuples, HasSmallAggs, change_group, kept_groups, merged_groups, merged_tallies};

use crate::groups::{Groups, Tallies};
use crate::key::KeyPart;
use std::alloc::{AllocError, Global};
use wh_base::seq::Seq;

// One more group: that of its key and this one are put together, or it comes last.
fn merge_group<'a>(
    alloc: Global,
    groups: &mut Groups<'a>,
    key: Seq<KeyPart<'a>>,
    tallies: Tallies,
) -> Result<(), AllocError>
    ensures { OnOk result (groups.new.entries ≡ change_group key.entry (λ ts. merged_tallies ts tallies) [] groups.old.entries) }
{
    match groups.get_mut(&key) {
        Some(kept) => kept.merge(alloc, tallies)?,
        None => {
            groups.insert(key, tallies)?;
        }
    }
    Ok(())
}

// All groups of the second put to the first, one after another.
fn merge_each<'a>(
    alloc: Global,
    first: Groups<'a>,
    second: Groups<'a>,
) -> Result<Groups<'a>, AllocError>
    ensures { IfOk result (λ groups. groups.entries ≡ merged_groups first.entry.entries second.entry.entries) }
{
    let mut groups = first;
    for (key, tallies) in second {
        merge_group(alloc, &mut groups, key, tallies)?;
    }
    Ok(groups)
}

/// Puts the groups of two lists of tuples together: counts and sums add, and the lesser and the greater value stay. The
/// groups of the first keep their order, and new ones come last. An error says that memory ran out, that a count leaves 64
/// bits, or a sum 128.
pub fn merge<'a>(
    alloc: Global,
    first: Groups<'a>,
    second: Groups<'a>,
) -> Result<Groups<'a>, AllocError>
    ensures { (query : StarQuery) (ts us : List (List RowAt)) → first.entry.entries ≡ kept_groups (column_value query.tables) query ts → second.entry.entries ≡ kept_groups (column_value query.tables) query us → IfOk result (λ groups. groups.entries ≡ kept_groups (column_value query.tables) query (ts ++ us)) }
{
    merge_each(alloc, first, second)
}
