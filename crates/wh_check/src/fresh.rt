//! How many of the rows that live the open block has made.
ghost use Rattle.std.specs.Prelude.{◌≡◌, ◌+◌, ◌<◌, ◌≤◌, ◌^◌, length};
ghost use Rattle.wh_check.specs.Fresh.{brings, fresh_at, fresh_come, fresh_gone, takes_fresh};
ghost use Rattle.wh_table.specs.Stored.{last_scn};

use wh_dml::RowChange;
use wh_table::Table;

/// Whether the live row at a place was made at this SCN, after which the table wasn't changed. Never past the last place.
#[tactic(auto, using(crate::proofs::FreshNow::fresh_now))]
fn is_fresh<L>(table: &Table<L>, scn: u64, place: u64) -> bool
    requires settled { last_scn table.now.versions ≤ scn }
    requires scn { 0 < scn }
    ensures { result ≡ fresh_at scn table.now place }
{
    table.visible(place, scn) && !table.visible(place, scn - 1)
}

/// Whether a change takes away, or gives new values to, a row that was made at this SCN.
fn takes_fresh<L>(table: &Table<L>, scn: u64, change: &RowChange) -> bool
    requires settled { last_scn table.now.versions ≤ scn }
    requires scn { 0 < scn }
    ensures { result ≡ takes_fresh scn table.now change.now }
{
    match &change.old {
        Some(row) => is_fresh(table, scn, row.place),
        None => false,
    }
}

/// How many of the changes take away, or give new values to, a row that was made at this SCN.
fn fresh_gone<L>(table: &Table<L>, scn: u64, changes: &[RowChange]) -> usize
    requires settled { last_scn table.now.versions ≤ scn }
    requires scn { 0 < scn }
    ensures { result ≡ fresh_gone scn table.now changes.now }
{
    changes
        .iter()
        .filter(|change| takes_fresh(table, scn, change))
        .count()
}

/// Whether a change brings a row.
fn brings(change: &RowChange) -> bool
    ensures { result ≡ brings change.now }
{
    change.new.is_some()
}

/// How many of the changes bring a row.
pub(crate) fn fresh_come(changes: &[RowChange]) -> usize
    ensures count { result ≡ fresh_come changes.now }
    ensures few { result ≤ length changes.now }
{
    changes.iter().filter(|change| brings(change)).count()
}

/// How many of the rows that live the open block has inserted or updated, after these changes of a table: before them there
/// were `fresh` in all tables, and the table is as it was then. The SCN is that of the block, after which the table wasn't
/// changed. No more of these rows go than there were and come.
pub(crate) fn fresh_after<L>(table: &Table<L>, scn: u64, changes: &[RowChange], fresh: u64) -> u64
    requires settled { last_scn table.now.versions ≤ scn }
    requires scn { 0 < scn }
    requires enough { fresh_gone scn table.now changes.now ≤ fresh + fresh_come changes.now }
    requires small { fresh ≤ 2 ^ 40 }
    ensures { result + fresh_gone scn table.now changes.now ≡ fresh + fresh_come changes.now }
{
    let come = fresh_come(changes) as u64;
    let gone = fresh_gone(table, scn, changes) as u64;
    fresh + come - gone
}
