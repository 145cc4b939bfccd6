ghost use Rattle.std.specs.Prelude.{◌≡◌, None};
ghost use Rattle.wh_base.specs.Lists.{option_case};
ghost use Rattle.wh_keys.specs.Indexes.{entry_in};

use std::marker::Model;
use wh_base::values::Value;
use wh_dml::PlacedRow;

/// What a row has in the index of a column: its value there, and its place.
#[derive(Drop)]
pub struct Entry<'a> {
    pub value: &'a Value,
    pub place: u64,
}

impl<'a> Model for Entry<'a> {
    ghost use Rattle.wh_keys.specs.Coded.{Entered};

    ghost Value = { Entered };

    ghost view = { λ e. (e.value.now, e.place) };
}

/// What the row has in the index of the column; `None` where there is no row, or NULL in the column.
pub fn entry_of(column: u32, row: &Option<PlacedRow>) -> Option<Entry<'_>>
    ensures { result ≡ option_case row.now None (entry_in column) }
{
    match row {
        Some(row) => entry_in(column, row),
        None => None,
    }
}

fn entry_in(column: u32, row: &PlacedRow) -> Option<Entry<'_>>
    ensures { result ≡ entry_in column row.now }
{
    match row.values.get(column as usize) {
        Some(value) => {
            if value.is_null() {
                return None;
            }
            Some(Entry {
                value,
                place: row.place,
            })
        }
        None => None,
    }
}
