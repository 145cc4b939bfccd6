use wh_base::seq::Seq;
use wh_base::values::Value;

/// A row of a table with the place at which it stands, counted from 0.
#[derive(Drop)]
pub struct PlacedRow {
    pub place: u64,
    pub values: Seq<Value>,
}

/// A change of the row with this rowid: the row as it stands before, and as it will stand. An insert has no old row, a
/// delete no new one, an update both.
#[derive(Drop)]
pub struct RowChange {
    pub rowid: u64,
    pub old: Option<PlacedRow>,
    pub new: Option<PlacedRow>,
}
