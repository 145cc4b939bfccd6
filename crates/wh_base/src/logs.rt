use crate::seq::Seq;
use crate::values::Value;

/// What a log row tells of: an insert, an update or a delete.
#[derive(Clone, Copy, Debug)]
pub enum LogOp {
    I,
    U,
    D,
}

/// Which side of a change a log row keeps: the old values or the new ones.
#[derive(Clone, Copy, Debug)]
pub enum LogSide {
    O,
    N,
}

/// A row of a materialized view log: the SCN of its commit, its number in the log and the rowid, each where the log
/// keeps them, and the values of the logged columns in the order in which the log names them.
#[derive(Drop)]
pub struct LogRow {
    pub scn: u64,
    pub seq: Option<u128>,
    pub rowid: Option<u64>,
    pub op: LogOp,
    pub side: LogSide,
    pub values: Seq<Value>,
}

/// What a log keeps of each change, and FROM: it holds the rows with an SCN above it.
#[derive(Drop)]
pub struct LogFacts {
    pub rowid: bool,
    pub sequence: bool,
    pub new_values: bool,
    pub columns: Seq<u32>,
    pub from: u64,
}

/// The rows of the log of one table that a refresh needs, with the logged columns in the log's order.
#[derive(Drop)]
pub struct LogPart {
    pub table: u32,
    pub columns: Seq<u32>,
    pub rows: Seq<LogRow>,
}
