ghost use Rattle.std.specs.Prelude.{◌≡◌};

use std::marker::Model;
use wh_base::seq::Seq;
use wh_base::values::Value;

/// A row of a tuple: its rowid, the number of its partition, and its values, where they stand. Contracts see the row.
#[derive(Drop)]
pub struct TupleRow<'a> {
    rowid: u64,
    mark: u64,
    values: &'a Seq<Value>,
}

impl<'a> Model for TupleRow<'a> {
    ghost use Rattle.wh_base.specs.declared.tables.RowAt.{RowAt};
    ghost use Rattle.wh_base.specs.contracts.tables.RowAt.{the_row};

    ghost Value = { RowAt };

    ghost coded = { the_row.coded };

    ghost view = { λ r. record { rowid = r.rowid; mark = r.mark; values = r.values.now } };
}

impl<'a> TupleRow<'a> {
    /// The row with this rowid, in the partition with this number, with these values.
    pub fn new(rowid: u64, mark: u64, values: &'a Seq<Value>) -> TupleRow<'a>
        ensures { result ≡ record { rowid = rowid; mark = mark; values = values.now } }
    {
        TupleRow {
            rowid,
            mark,
            values,
        }
    }

    /// The same row once more.
    pub fn again(&self) -> TupleRow<'a>
        ensures { result ≡ self.now }
    {
        TupleRow {
            rowid: self.rowid,
            mark: self.mark,
            values: self.values,
        }
    }

    /// Its rowid.
    pub fn rowid(&self) -> u64
        ensures { result ≡ self.now.rowid }
    {
        self.rowid
    }

    /// The number of its partition, 0 in a table without partitions.
    pub fn mark(&self) -> u64
        ensures { result ≡ self.now.mark }
    {
        self.mark
    }

    /// Its values.
    pub fn values(&self) -> &'a Seq<Value>
        ensures { result.now ≡ self.now.values }
    {
        self.values
    }
}
