//! A block of statements, one after another over a copy of the tables.
ghost use Rattle.std.specs.List.{All};
ghost use Rattle.std.specs.Prelude.{◌≡◌, ◌+◌, ◌-◌, ◌<◌, ◌≤◌, ◌^◌, IfOk, IsTrue, None, OnErr};
ghost use Rattle.def_effect.specs.Block.{max_versions};
ghost use Rattle.wh_check.specs.Effects.{AreKept, IsOutcome, KeysLeft, read_by};
ghost use Rattle.wh_constraints.specs.Constraints.{AreRight};
ghost use Rattle.wh_load.specs.Sized.{is_sized_def};

use crate::statement::run_statement;
use std::alloc::{AllocError, Global};
use wh_base::reads::Reads;
use wh_base::replies::Refused;
use wh_base::statements::Statement;
use wh_keys::Keys;
use wh_table::Tables;

/// How many statements a block has at the most: the number of one fits a `u32`.
const MOST: usize = 0xffff_ffff;

/// What a block leaves: the tables at the next SCN, how many rows it changed, how many row versions are kept after it, and
/// how many rows it scanned.
#[derive(Drop)]
pub struct Checked<L> {
    pub tables: Tables<L>,
    pub rows: u64,
    pub versions: u64,
    pub read: u64,
}

/// The number of the statement at a place, counted from 1. An error says that there are 2^32 - 1 statements or more.
fn number_of(at: usize) -> Result<u32, AllocError>
    ensures { IfOk result (λ n. n ≡ at + 1) }
{
    if at >= MOST {
        return Err(AllocError);
    }
    Ok(at as u32 + 1)
}

/// What a block makes of tables and their indexes, or the refusal at which it stops. After a refusal and after an error the
/// indexes are those of some of its statements; the rest as for `check_block`.
#[tactic(auto, using(crate::proofs::Running::running))]
fn run_block<L>(
    alloc: Global,
    tables: &Tables<L>,
    keys: &mut Keys,
    kept: u64,
    statements: &[Statement],
    reads: &mut Reads<L>,
) -> Result<Result<Checked<L>, Refused>, AllocError>
    requires whole { All (λ s. s.def.part_key ≡ None) tables.now.tables.items }
    requires sized { All (λ s. IsTrue (is_sized_def s.def)) tables.now.tables.items }
    requires right { AreRight tables.now.scn tables.now.tables.items keys.old.now }
    requires room { tables.now.scn < 2 ^ 64 - 1 }
    requires kept { kept ≤ max_versions }
    requires reads { reads.old ≤ 2 ^ 63 }
    ensures outcome { IfOk result (λ r. IsOutcome tables.now.scn tables.now.tables.items kept statements.now r) }
    ensures same { keys.new.before ≡ keys.old.before }
    ensures right { IfOk result (λ r. AreKept keys.new.now r) }
    ensures raised { IfOk result (λ r. reads.new ≡ reads.old + read_by r) }
    ensures least { reads.old ≤ reads.new }
{
    let mut after = tables.copy(alloc)?;
    after.raise();
    let mut rows = 0;
    let mut fresh = 0;
    let mut read = 0;
    for at in 0..statements.len() {
        let number = number_of(at)?;
        match run_statement(alloc, &mut after, keys, kept, fresh, &statements[at], reads)? {
            Ok(made) => {
                rows += made.rows;
                fresh = made.fresh;
                read += made.read;
            }
            Err(stop) => {
                return Ok(Err(Refused {
                    code: stop.code,
                    at: Some(number),
                    read: read + stop.read,
                }));
            }
        }
    }
    Ok(Ok(Checked {
        tables: after,
        rows,
        versions: kept + fresh,
        read,
    }))
}

/// What a block of statements makes of tables and their indexes, where so many row versions are kept, or the refusal at
/// which it stops, with the number of its statement counted from 1 and with how many rows were scanned by then. Each
/// statement sees what those before it made. The tables that it is given stay as they are, so nothing is left of a block
/// that is refused. The counter rises by as many rows as are scanned.
///
/// The indexes are those of the tables, and no block is open in them. Afterwards they are those of the tables that the block
/// leaves; after a refusal and after an error they are as they were. No block is open in them then, either.
///
/// A statement is an INSERT, an UPDATE, a DELETE or a LOAD; any other is refused. The tables have no partitions, their number
/// columns have at most 15 digits, each enabled foreign key holds, and the SCN isn't the last.
///
/// An error says that memory ran out, that there are 2^32 - 1 statements or more, that a table has no places left, that the
/// block has more changes than the indexes can take back, or that a sum of an UPDATE leaves 128 bits.
///
/// That a block stops at the first statement that fails, and then changes nothing, is the rule of this project's own; the
/// order in which a statement is checked is that of `crates/def_effect`.
pub fn check_block<L>(
    alloc: Global,
    tables: &Tables<L>,
    keys: &mut Keys,
    kept: u64,
    statements: &[Statement],
    reads: &mut Reads<L>,
) -> Result<Result<Checked<L>, Refused>, AllocError>
    requires whole { All (λ s. s.def.part_key ≡ None) tables.now.tables.items }
    requires sized { All (λ s. IsTrue (is_sized_def s.def)) tables.now.tables.items }
    requires right { AreRight tables.now.scn tables.now.tables.items keys.old.now }
    requires settled { keys.old.before ≡ keys.old.now }
    requires room { tables.now.scn < 2 ^ 64 - 1 }
    requires kept { kept ≤ max_versions }
    requires reads { reads.old ≤ 2 ^ 63 }
    ensures outcome { IfOk result (λ r. IsOutcome tables.now.scn tables.now.tables.items kept statements.now r) }
    ensures settled { keys.new.before ≡ keys.new.now }
    ensures right { IfOk result (λ r. KeysLeft keys.old.now keys.new.now r) }
    ensures err { OnErr result (keys.new.now ≡ keys.old.now) }
    ensures raised { IfOk result (λ r. reads.new ≡ reads.old + read_by r) }
    ensures least { reads.old ≤ reads.new }
{
    match run_block(alloc, tables, keys, kept, statements, reads) {
        Ok(Ok(checked)) => {
            keys.keep();
            Ok(Ok(checked))
        }
        Ok(Err(refused)) => {
            keys.roll_back();
            Ok(Err(refused))
        }
        Err(error) => {
            keys.roll_back();
            Err(error)
        }
    }
}
