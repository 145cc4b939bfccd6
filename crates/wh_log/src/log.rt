ghost use Rattle.std.specs.Prelude.{◌≡◌, ◌+◌, ◌≤◌, ◌<◌, ◌^◌, [], ◌∷◌, length, max, nat_eq, OnOk, OnErr, IfSome};
ghost use Rattle.std.specs.List.{All, IsDistinct};
ghost use Rattle.def_history.specs.Logs.{logged_values, sides_of};
ghost use Rattle.wh_log.specs.Log.{begun, between, noted_at, purged, up_to, side_row, with_noted, with_rows, HasColumns};

use crate::buffers::{Buffers, drop_first, push_within, where_true};
use crate::sides::{count_up_to, logged_of, rows_after, rows_up_to};
use std::alloc::{AllocError, Global};
use std::marker::Model;
use wh_base::logs::{LogFacts, LogOp, LogRow, LogSide};
use wh_base::seq::Seq;
use wh_base::tables::Change;
use wh_base::values::Value;

/// The materialized view log of a table (Data Warehousing Guide). Contracts see it as a record: its facts with the FROM of
/// now, its birth, the rows that it holds, how many rows it ever had, and for how many more there is memory.
#[derive(Drop)]
pub struct MvLog {
    facts: LogFacts,
    born: u64,
    numbered: u128,
    rows: Vec<LogRow>,
    buffers: Buffers,
}

impl Model for MvLog {
    ghost use Rattle.wh_log.specs.Held.{Held};

    ghost Value = { Held };

    ghost use Rattle.wh_log.specs.Kept.{IsKept};

    ghost view = { λ l. record { facts = l.facts; born = l.born; rows = l.rows.items; numbered = l.numbered; room = l.buffers.count } };

    ghost invariant = { IsKept };
}

impl MvLog {
    /// The log of a table without rows, which is born at the FROM of the facts. Takes no memory.
    pub fn new(alloc: Global, facts: LogFacts) -> MvLog
        ensures { result ≡ begun facts }
    {
        MvLog {
            born: facts.from,
            numbered: 0,
            rows: Vec::new(alloc),
            buffers: Buffers::new(alloc, facts.columns.len()),
            facts,
        }
    }

    /// The SCN of its birth.
    pub fn born(&self) -> u64
        ensures { result ≡ self.now.born }
    {
        self.born
    }

    /// What the log keeps of each change, and the FROM of now: it holds the rows with an SCN above it.
    pub fn facts(&self) -> &LogFacts
        ensures { result.now ≡ self.now.facts }
    {
        &self.facts
    }

    /// All rows that the log holds, by their SCN and then by their number.
    pub fn rows(&self) -> &[LogRow]
        ensures { result.now ≡ self.now.rows }
    {
        self.rows.as_slice()
    }

    /// The rows with an SCN above `from` and at most `to`, in their order. FROM must be at most `from`, so that no purge
    /// took one of them (this project's own). They are found by two binary searches, and none of them is copied.
    #[tactic(auto, using(crate::proofs::Orders::orders))]
    pub fn suffix(&self, from: u64, to: u64) -> &[LogRow]
        requires { self.now.facts.from ≤ from }
        ensures { result.now ≡ between from to self.now.rows }
    {
        rows_up_to(rows_after(self.rows.as_slice(), from), to)
    }

    /// Makes memory for so many rows more, each a side of a change to be noted. An error says that memory ran out; then the
    /// log is as it was.
    pub fn reserve(&mut self, rows: u64) -> Result<(), AllocError>
        ensures ok { OnOk result (self.new ≡ record self.old { room = max self.old.room rows }) }
        ensures err { OnErr result (self.new ≡ self.old) }
    {
        let rows = rows as usize;
        self.rows.reserve(rows.max(self.buffers.count()))?;
        self.buffers.reserve(rows)?;
        Ok(())
    }

    /// Removes the rows with an SCN at or below `to` and gives how many they were. FROM becomes the greater of itself and
    /// `to`, and the numbers of later rows go on (Data Warehousing Guide; the numbers are this project's own). The place is
    /// found by binary search; then the rows that stay move up.
    #[tactic(auto, using(crate::proofs::Orders::orders))]
    pub fn purge(&mut self, to: u64) -> u64
        ensures removed { result ≡ length (up_to to self.old.rows) }
        ensures rest { self.new ≡ purged self.old to }
    {
        let gone = count_up_to(self.rows.as_slice(), to);
        drop_first(&mut self.rows, gone);
        self.facts.from = self.facts.from.max(to);
        gone as u64
    }

    /// Appends the sides of a change that was committed at this SCN, numbered after all rows that the log ever had: for
    /// an insert the new values, for a delete the old ones, for an update the old ones and then, where the log keeps new
    /// values, the new ones (Data Warehousing Guide). The values of the logged columns are moved and not copied.
    ///
    /// It takes no memory: there must be memory for these sides. The logged columns must differ and be there in each row of
    /// the change, and the SCN must be above FROM and not below that of a row of the log.
    pub fn note(&mut self, change: Change, scn: u64)
        requires differ { IsDistinct nat_eq self.old.facts.columns }
        requires old_columns { IfSome change.old (HasColumns self.old.facts) }
        requires new_columns { IfSome change.new (HasColumns self.old.facts) }
        requires room { length (sides_of self.old.facts (noted_at scn change)) ≤ self.old.room }
        requires sequence { self.old.numbered + length (sides_of self.old.facts (noted_at scn change)) < 2 ^ 128 }
        requires above { self.old.facts.from < scn }
        requires latest { All (λ r. r.scn ≤ scn) self.old.rows }
        ensures { self.new ≡ with_noted self.old (noted_at scn change) }
    {
        let Change { rowid, old, new } = change;
        match (old, new) {
            (None, None) => {}
            (None, Some(new)) => self.push_side(scn, rowid, LogOp::I, LogSide::N, new),
            (Some(old), None) => self.push_side(scn, rowid, LogOp::D, LogSide::O, old),
            (Some(old), Some(new)) => {
                self.push_side(scn, rowid, LogOp::U, LogSide::O, old);
                if self.facts.new_values {
                    self.push_side(scn, rowid, LogOp::U, LogSide::N, new);
                }
            }
        }
    }

    /// One side of a change, numbered after all rows that the log ever had.
    #[tactic(auto, using(crate::proofs::Orders::orders))]
    fn push_side(&mut self, scn: u64, rowid: u64, op: LogOp, side: LogSide, row: Seq<Value>)
        requires differ { IsDistinct nat_eq self.old.facts.columns }
        requires columns { HasColumns self.old.facts row }
        requires room { 0 < self.old.room }
        requires sequence { self.old.numbered + 1 < 2 ^ 128 }
        requires above { self.old.facts.from < scn }
        requires latest { All (λ r. r.scn ≤ scn) self.old.rows }
        ensures { self.new ≡ with_rows self.old (side_row self.old.facts scn rowid op side row ∷ []) }
    {
        let buffer = self.buffers.take();
        let values = logged_of(row, &self.facts.columns, buffer);
        self.numbered += 1;
        let row = LogRow {
            scn,
            seq: where_true(self.facts.sequence, self.numbered),
            rowid: where_true(self.facts.rowid, rowid),
            op,
            side,
            values,
        };
        push_within(&mut self.rows, row);
    }
}
