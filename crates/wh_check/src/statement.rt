//! One statement of a block.
ghost use Rattle.std.specs.Prelude.{◌≡◌, ◌+◌, ◌<◌, ◌≤◌, ◌^◌, IfOk, IfSome, None, OnOk, length, slice_get, true};
ghost use Rattle.def_effect.specs.Block.{max_versions};
ghost use Rattle.wh_base.specs.Tables.{most_live, table_at};
ghost use Rattle.wh_check.specs.Fresh.{fresh_of};
ghost use Rattle.wh_check.specs.Making.{AreWhole, Ends, HaveShapeOnceFit, StayRight, ask_step, asked_refusal, asks_of, has_places, inserts_in, read_in, room_refusal, statement_step, versions_refusal};
ghost use Rattle.wh_constraints.specs.Constraints.{AreRight};
ghost use Rattle.wh_dml.specs.Placed.{ArePlaced, all_made};
ghost use Rattle.wh_dml.specs.Sized.{AreSized};
ghost use Rattle.wh_table.specs.Kept.{with_change};
ghost use Rattle.wh_table.specs.Stored.{base_seen};

use crate::fresh::{fresh_after, fresh_come};
use crate::making::make_changes;
use crate::rows::changes_refusal;
use std::alloc::{AllocError, Global};
use wh_base::reads::Reads;
use wh_base::replies::Refusal;
use wh_base::statements::Statement;
use wh_constraints::keys_refusal;
use wh_dml::{Asks, RowChange, statement_asked};
use wh_keys::Keys;
use wh_table::{Table, Tables};

/// The most rows of a table, and the most row versions that are kept of all tables.
const MOST_ROWS: u64 = 262_144;

const MOST_VERSIONS: u64 = 1_048_576;

/// The most places of a table.
const MOST_PLACES: u64 = 0x1_0000_0000;

/// What a statement made: how many rows it changed, of how many live rows there are versions that its block made by then, and
/// how many rows it scanned.
#[derive(Drop)]
pub(crate) struct Made {
    pub rows: u64,
    pub fresh: u64,
    pub read: u64,
}

/// Why a statement is refused, and how many rows it scanned.
#[derive(Drop)]
pub(crate) struct Stop {
    pub code: Refusal,
    pub read: u64,
}

/// How many of the changes insert a row.
#[tactic(auto, using(crate::proofs::Made::counting))]
fn count_inserts(changes: &[RowChange]) -> u64
    ensures { result ≡ inserts_in changes.now }
{
    let mut count = 0;
    for change in changes {
        if change.old.is_none() {
            count += 1;
        }
    }
    count
}

/// That a table would have too many rows.
#[tactic(auto, using(crate::proofs::Looked::looked))]
fn room_refusal<L>(
    alloc: Global,
    table: &Table<L>,
    changes: &[RowChange],
) -> Result<Option<Refusal>, AllocError>
    ensures { IfOk result (λ r. r ≡ room_refusal table.now changes.now) }
{
    if count_inserts(changes) > MOST_ROWS - table.live() {
        return Ok(Some(Refusal::TableFull(table.def().name.copy(alloc)?)));
    }
    Ok(None)
}

/// Whether a table has a place for each row that the changes bring.
fn has_places<L>(table: &Table<L>, changes: &[RowChange]) -> bool
    ensures { result ≡ has_places table.now changes.now }
{
    table.places() + (fresh_come(changes) as u64) < MOST_PLACES
}

/// The first refusal of changes of the table with this number before they are made: of a new row, then of a key or a
/// foreign key, and then for want of room. Where there is none, the indexes are those of the tables with the changes made.
/// An error says that memory ran out, that the table has no places left, or that the block has more changes than the
/// indexes can take back.
fn asked_refusal<L>(
    alloc: Global,
    tables: &Tables<L>,
    keys: &mut Keys,
    table: u32,
    changes: &[RowChange],
) -> Result<Option<Refusal>, AllocError>
    requires sized { AreSized tables.now.tables.items }
    requires there { table < length tables.now.tables.items }
    requires right { AreRight tables.now.scn tables.now.tables.items keys.old.now }
    requires placed { IfSome (slice_get tables.now.tables.items table) (λ t. ArePlaced tables.now.scn t changes.now) }
    ensures same { keys.new.before ≡ keys.old.before }
    ensures refusal { IfOk result (λ r. IfSome (slice_get tables.now.tables.items table) (λ s. r ≡ asked_refusal tables.now.scn tables.now.tables.items table s changes.now)) }
    ensures places { OnOk result (IfSome (slice_get tables.now.tables.items table) (λ s. has_places s changes.now ≡ true)) }
    ensures right { IfOk result (λ r. r ≡ None → AreRight tables.now.scn (with_change table (all_made tables.now.scn changes.now) tables.now.tables.items) keys.new.now) }
{
    let asked = tables.table(table);
    if !has_places(asked, changes) {
        return Err(AllocError);
    }
    if let Some(refusal) = changes_refusal(alloc, asked.def(), changes)? {
        return Ok(Some(refusal));
    }
    if let Some(refusal) = keys_refusal(alloc, tables, keys, table, changes)? {
        return Ok(Some(refusal));
    }
    match room_refusal(alloc, asked, changes)? {
        Some(refusal) => Ok(Some(refusal)),
        None => Ok(None),
    }
}

/// That too many row versions would be kept, where so many are beside those that the block made.
fn versions_refusal<L>(
    alloc: Global,
    table: &Table<L>,
    kept: u64,
    fresh: u64,
) -> Result<Option<Refusal>, AllocError>
    requires { kept ≤ max_versions }
    ensures { IfOk result (λ r. r ≡ versions_refusal table.now (kept + fresh)) }
{
    if fresh > MOST_VERSIONS - kept {
        return Ok(Some(Refusal::VersionsFull(table.def().name.copy(alloc)?)));
    }
    Ok(None)
}

/// What changes that are asked of a table make of tables at their SCN, where so many row versions were kept before the block
/// and so many live rows have versions that it made. The indexes go with the tables. After an error and after a refusal a
/// part of the changes may be made, in the tables and in the indexes.
fn make_asked<L>(
    alloc: Global,
    tables: &mut Tables<L>,
    keys: &mut Keys,
    kept: u64,
    fresh: u64,
    asks: Asks,
) -> Result<Result<Made, Stop>, AllocError>
    requires whole { AreWhole tables.old.tables.items }
    requires sized { AreSized tables.old.tables.items }
    requires scn { 0 < tables.old.scn }
    requires fresh { fresh ≡ fresh_of tables.old.scn tables.old.tables.items }
    requires few { kept + fresh ≤ max_versions }
    requires right { AreRight tables.old.scn tables.old.tables.items keys.old.now }
    requires there { asks.table < length tables.old.tables.items }
    requires placed { IfSome (slice_get tables.old.tables.items asks.table) (λ t. ArePlaced tables.old.scn t asks.changes.items) }
    requires shape { HaveShapeOnceFit (table_at (base_seen tables.old.scn tables.old.tables.items) asks.table) asks.changes.items }
    ensures scn { tables.new.scn ≡ tables.old.scn }
    ensures same { keys.new.before ≡ keys.old.before }
    ensures right { IfOk result (λ r. StayRight tables.new.scn tables.new.tables.items keys.new.now r) }
    ensures ends { IfOk result (λ r. Ends (ask_step kept (asks_of asks.table asks.changes.items asks.scanned)) tables.old.scn kept tables.old.tables.items tables.new.tables.items r) }
    ensures read { IfOk result (λ r. read_in r ≡ asks.scanned) }
{
    let Asks {
        table,
        changes,
        scanned,
    } = asks;
    if let Some(code) = asked_refusal(alloc, tables, keys, table, changes.as_slice())? {
        return Ok(Err(Stop {
            code,
            read: scanned,
        }));
    }
    let rows = changes.len() as u64;
    let fresh = fresh_after(tables.table(table), tables.scn(), changes.as_slice(), fresh);
    make_changes(tables, table, changes)?;
    match versions_refusal(alloc, tables.table(table), kept, fresh)? {
        Some(code) => Ok(Err(Stop {
            code,
            read: scanned,
        })),
        None => Ok(Ok(Made {
            rows,
            fresh,
            read: scanned,
        })),
    }
}

/// What a statement of a block makes of tables at their SCN, or why it is refused; the rest as for `make_asked`.
pub(crate) fn run_statement<L>(
    alloc: Global,
    tables: &mut Tables<L>,
    keys: &mut Keys,
    kept: u64,
    fresh: u64,
    statement: &Statement,
    reads: &mut Reads<L>,
) -> Result<Result<Made, Stop>, AllocError>
    requires whole { AreWhole tables.old.tables.items }
    requires sized { AreSized tables.old.tables.items }
    requires scn { 0 < tables.old.scn }
    requires fresh { fresh ≡ fresh_of tables.old.scn tables.old.tables.items }
    requires few { kept + fresh ≤ max_versions }
    requires right { AreRight tables.old.scn tables.old.tables.items keys.old.now }
    requires room { reads.old ≤ 2 ^ 63 + 2 ^ 51 }
    ensures scn { tables.new.scn ≡ tables.old.scn }
    ensures same { keys.new.before ≡ keys.old.before }
    ensures right { IfOk result (λ r. StayRight tables.new.scn tables.new.tables.items keys.new.now r) }
    ensures ends { IfOk result (λ r. Ends (statement_step kept statement.now) tables.old.scn kept tables.old.tables.items tables.new.tables.items r) }
    ensures raised { IfOk result (λ r. reads.new ≡ reads.old + read_in r) }
    ensures least { reads.old ≤ reads.new }
    ensures most { reads.new ≤ reads.old + most_live }
{
    match statement_asked(alloc, tables, statement, reads)? {
        Ok(asks) => {
            let ends = make_asked(alloc, tables, keys, kept, fresh, asks)?;
            Ok(ends)
        }
        Err(code) => Ok(Err(Stop { code, read: 0 })),
    }
}
