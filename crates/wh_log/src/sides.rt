ghost use Rattle.std.specs.Prelude.{◌≡◌, ◌≤◌, ◌<◌, [], drop, length, map, nat_eq, take, vec_capacity};
ghost use Rattle.std.specs.List.{All, IsDistinct};
ghost use Rattle.std.specs.List.Sorted.{IsNonDecreasingBy};
ghost use Rattle.wh_base.specs.Tables.{value_at};
ghost use Rattle.wh_log.specs.Log.{after, scn_of, up_to};

use crate::buffers::push_within;
use std::mem;
use wh_base::logs::LogRow;
use wh_base::seq::Seq;
use wh_base::values::Value;

/// The values of these columns, in their order. They are moved out of the row and not copied.
pub fn logged_of(row: Seq<Value>, columns: &Seq<u32>, buffer: Vec<Value>) -> Seq<Value>
    requires differ { IsDistinct nat_eq columns.now }
    requires within { All (λ c. c < length row) columns.now }
    requires empty { buffer.items ≡ [] }
    requires room { length columns.now ≤ vec_capacity buffer }
    ensures { result ≡ map (value_at row) columns.now }
{
    let mut values = row.into_vec();
    let mut picked = buffer;
    for column in columns.as_slice() {
        let value = mem::replace(&mut values[*column as usize], Value::Null);
        push_within(&mut picked, value);
    }
    match Seq::from_vec(picked) {
        Ok(logged) => logged,
        Err(_) => unreachable!(),
    }
}

/// How many rows have an SCN at or below this one. They are the first.
pub fn count_up_to(rows: &[LogRow], scn: u64) -> usize
    requires { IsNonDecreasingBy scn_of rows.now }
    ensures within { result ≤ length rows.now }
    ensures first { take result rows.now ≡ up_to scn rows.now }
    ensures rest { drop result rows.now ≡ after scn rows.now }
{
    rows.partition_point(|row| row.scn <= scn)
}

/// The rows with an SCN above this one.
#[tactic(auto, using(crate::proofs::Orders::orders))]
pub fn rows_after(rows: &[LogRow], scn: u64) -> &[LogRow]
    requires { IsNonDecreasingBy scn_of rows.now }
    ensures rows { result.now ≡ after scn rows.now }
    ensures ordered { IsNonDecreasingBy scn_of result.now }
{
    rows.split_at(count_up_to(rows, scn)).1
}

/// The rows with an SCN at or below this one.
pub fn rows_up_to(rows: &[LogRow], scn: u64) -> &[LogRow]
    requires { IsNonDecreasingBy scn_of rows.now }
    ensures { result.now ≡ up_to scn rows.now }
{
    rows.split_at(count_up_to(rows, scn)).0
}
