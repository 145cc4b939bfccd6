//! The values that an UPDATE gives a row.
ghost use Rattle.std.specs.List.{enumerate_from, find};
ghost use Rattle.std.specs.Option.{option_copied};
ghost use Rattle.std.specs.Prelude.{◌≡◌, ◌==◌, IfOk, List, map};
ghost use Rattle.def_effect.specs.Block.{set_or_old, updated_row};
ghost use Rattle.wh_base.specs.Values.{added_value, day_value};
ghost use Rattle.wh_base.specs.declared.values.Value.{Value};
ghost use Rattle.wh_dml.specs.Changing.{row_set, value_set};
ghost use Rattle.wh_dml.specs.Setting.{placed_set, set_to, value_after};

use crate::asks::given_value;
use crate::refusals::place_of;
use std::alloc::{AllocError, Global};
use wh_base::day::Day;
use wh_base::seq::Seq;
use wh_base::statements::{NewValue, SetColumn};
use wh_base::tables::TableDef;
use wh_base::values::Value;

/// What a column is set to: a value, or the old value of the column at a place and what is added to it.
#[derive(Drop)]
pub enum SetTo {
    Given(Value),
    Moved(u32, i128),
}

/// A column that is set, by its place, and to what.
#[derive(Drop)]
pub struct PlacedSet {
    pub column: u32,
    pub to: SetTo,
}

/// The SET list of an UPDATE with its columns found, once for all rows.
#[derive(Drop)]
pub struct SetList {
    pub sets: Seq<PlacedSet>,
}

// What a column is set to, with the column found whose old value it takes.
fn set_to(alloc: Global, def: &TableDef, value: &NewValue) -> Result<SetTo, AllocError>
    ensures { IfOk result (λ t. t ≡ set_to def.now value.now) }
{
    match value {
        NewValue::Given(literal) => Ok(SetTo::Given(given_value(alloc, literal)?)),
        NewValue::Moved(from, number) => Ok(SetTo::Moved(place_of(def, from), *number)),
    }
}

fn placed_set(alloc: Global, def: &TableDef, set: &SetColumn) -> Result<PlacedSet, AllocError>
    ensures { IfOk result (λ p. p ≡ placed_set def.now set.now) }
{
    Ok(PlacedSet {
        column: place_of(def, &set.column),
        to: set_to(alloc, def, &set.value)?,
    })
}

// The items of a SET list with their columns found, in no more memory than they take.
fn placed_sets(
    alloc: Global,
    def: &TableDef,
    sets: &[SetColumn],
) -> Result<Seq<PlacedSet>, AllocError>
    ensures { IfOk result (λ all. all ≡ map (placed_set def.now) sets.now) }
{
    let mut all = Vec::with_capacity(alloc, sets.len())?;
    for set in sets {
        all.push(placed_set(alloc, def, set)?)?;
    }
    Seq::from_vec(all)
}

// The day of a number. A number outside the calendar stays one, which no column of days holds.
#[tactic(auto, using(crate::proofs::Adding::days))]
fn day_value(number: i128) -> Value
    ensures { result ≡ day_value number }
{
    let Ok(near) = i64::try_from(number) else {
        return Value::Num(number);
    };
    match Day::new(near) {
        Some(day) => Value::Day(day),
        None => Value::Num(number),
    }
}

// A number with another added, or the day so many days later; NULL for any other value. An error says that the sum leaves
// 128 bits.
fn added_value(value: &Value, number: i128) -> Result<Value, AllocError>
    ensures { IfOk result (λ v. v ≡ added_value value.now number) }
{
    match value {
        Value::Num(old) => match old.checked_add(number) {
            Some(sum) => Ok(Value::Num(sum)),
            None => Err(AllocError),
        },
        Value::Day(day) => match i128::from(day.number()).checked_add(number) {
            Some(sum) => Ok(day_value(sum)),
            None => Err(AllocError),
        },
        _ => Ok(Value::Null),
    }
}

// What a column is set to in a row with these old values.
fn value_set(alloc: Global, old: &Seq<Value>, to: &SetTo) -> Result<Value, AllocError>
    ensures { IfOk result (λ v. v ≡ value_set old.now to.now) }
{
    match to {
        SetTo::Given(value) => value.copy(alloc),
        SetTo::Moved(from, number) => match old.get(*from as usize) {
            Some(value) => added_value(value, *number),
            None => Ok(Value::Null),
        },
    }
}

// What sets the column at a place, where something does.
fn set_at(sets: &[PlacedSet], place: usize) -> Option<&PlacedSet>
    ensures { option_copied result ≡ find (λ s. s.column == place) sets.now }
{
    for set in sets {
        if set.column as usize == place {
            return Some(set);
        }
    }
    None
}

// The new value of the column at a place, which has this value in a row with these old values.
fn value_after(
    alloc: Global,
    sets: &Seq<PlacedSet>,
    old: &Seq<Value>,
    place: usize,
    value: &Value,
) -> Result<Value, AllocError>
    ensures { IfOk result (λ v. v ≡ value_after sets.now old.now (place, value.now)) }
{
    match set_at(sets.as_slice(), place) {
        Some(set) => value_set(alloc, old, &set.to),
        None => value.copy(alloc),
    }
}

// The values of a row with these old values after the items of a SET list.
#[tactic(auto, using(crate::proofs::Setting::values))]
fn values_after(
    alloc: Global,
    sets: &Seq<PlacedSet>,
    old: &Seq<Value>,
) -> Result<Seq<Value>, AllocError>
    ensures { IfOk result (λ all. all ≡ map (value_after sets.now old.now) (enumerate_from 0 old.now)) }
{
    let mut all = Vec::with_capacity(alloc, old.len())?;
    for place in 0..old.len() {
        let value = &old.as_slice()[place];
        all.push(value_after(alloc, sets, old, place, value)?)?;
    }
    Seq::from_vec(all)
}

impl SetList {
    /// This SET list of a table with this definition. `update_refusal` tells whether one of its columns is unknown; here such
    /// a one would be the first column. An error says that memory ran out, or that there are 2^32 items or more.
    #[tactic(auto, using(crate::proofs::Setting::placing))]
    pub fn new(alloc: Global, def: &TableDef, sets: &[SetColumn]) -> Result<SetList, AllocError>
        ensures { IfOk result (λ s. (old : List Value) → row_set s old ≡ updated_row def.now sets.now old) }
    {
        Ok(SetList {
            sets: placed_sets(alloc, def, sets)?,
        })
    }

    /// The values of a row with these old values after the SET list, in no more memory than they take. Each new value is made
    /// of the old values alone; a NULL with a number added is NULL, and a day that leaves the calendar is its number. An error
    /// says that memory ran out, or that a sum leaves 128 bits, which the numbers that a script can write never make.
    pub fn apply(&self, alloc: Global, old: &Seq<Value>) -> Result<Seq<Value>, AllocError>
        ensures { IfOk result (λ vs. vs ≡ row_set self.now old.now) }
    {
        let values = values_after(alloc, &self.sets, old)?;
        Ok(values)
    }
}
