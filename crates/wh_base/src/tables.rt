use crate::seq::Seq;
use crate::txt::Txt;
use crate::values::{Interval, Value};

/// What a column holds: numbers of at most so many digits, texts of at most so many bytes, or days.
#[derive(Clone, Copy, Debug)]
pub enum Kind {
    Number(u32),
    Text(u32),
    Date,
}

/// A column; `not_null` is true also of a primary key and of a partition key.
#[derive(Drop)]
pub struct ColumnDef {
    pub name: Txt,
    pub kind: Kind,
    pub not_null: bool,
}

/// A foreign key: a column that refers to the column `to` of a table, both by their numbers. `rely` says that it is
/// RELY DISABLE NOVALIDATE; else it is enabled and validated.
#[derive(Clone, Copy, Debug)]
pub struct ForeignDef {
    pub column: u32,
    pub table: u32,
    pub to: u32,
    pub rely: bool,
}

/// A table's definition: its columns, its keys and foreign keys in the order of declaration, its primary key, which is
/// one of the keys, the column by which it is partitioned, and whether an update may move a row to another partition.
#[derive(Drop)]
pub struct TableDef {
    pub name: Txt,
    pub columns: Seq<ColumnDef>,
    pub keys: Seq<u32>,
    pub primary: Option<u32>,
    pub foreign: Seq<ForeignDef>,
    pub part_key: Option<u32>,
    pub movement: bool,
}

/// A partition: the values below its bound, down to the bound of the partition before it; `None` is no bound. Its
/// number counts the partitions ever made in its table, from 1.
#[derive(Drop)]
pub struct Part {
    pub name: Txt,
    pub number: u64,
    pub below: Option<Value>,
}

/// That a partition was touched: its interval then, its number, and the SCN.
#[derive(Drop)]
pub struct Touch {
    pub interval: Interval,
    pub number: u64,
    pub scn: u64,
}

/// A row with its rowid and the number of its partition, which is 0 in a table without partitions.
#[derive(Drop)]
pub struct RowAt {
    pub rowid: u64,
    pub mark: u64,
    pub values: Seq<Value>,
}

/// A change of the row with this rowid: an insert has no old values, a delete no new ones, an update both.
#[derive(Drop)]
pub struct Change {
    pub rowid: u64,
    pub old: Option<Seq<Value>>,
    pub new: Option<Seq<Value>>,
}

/// The tuples of a query, each a row of each of its tables in tree order.
pub type Joined = Seq<Seq<RowAt>>;
