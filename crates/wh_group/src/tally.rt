ghost use Rattle.def_meaning.specs.Accumulated.{acc_by, average_by, sum_by_count};
ghost use Rattle.def_meaning.specs.Meaning.{either_value, greater, lesser, number_of};
ghost use Rattle.std.specs.Prelude.{◌≡◌, ◌+◌, [], IfOk, OnOk};
ghost use Rattle.wh_base.specs.Values.{is_true_that};
ghost use Rattle.wh_group.specs.Tallies.{HasRoom, IsBounded, is_above, merged_sum, merged_tally, sum_with, tally_by, tally_value, tally_with};
ghost use Rattle.wh_tuple.specs.Meant.{cell_value};

use std::alloc::{AllocError, Global};
use wh_base::columns::Agg;
use wh_base::pair::Pair;
use wh_base::values::{Op, Value};
use wh_base::wide::Wide;
use wh_tuple::Cell;

/// The count and the sum of the values of a group that aren't NULL.
#[derive(Clone, Copy)]
pub struct Summed {
    pub count: u64,
    pub sum: Wide,
}

/// What is kept of a group for an aggregate: its rows for COUNT(*), for COUNT how many values aren't NULL, for SUM and AVG
/// also their sum, and for MIN and MAX the least or the greatest of them.
#[derive(Drop)]
pub enum Tally {
    Rows(u64),
    Values(u64),
    Sum(Summed),
    Least(Value),
    Greatest(Value),
}

// The sum of two counts. An error says that it leaves 64 bits.
fn added(count: u64, more: u64) -> Result<u64, AllocError>
    ensures { IfOk result (λ n. n ≡ count + more) }
{
    match count.checked_add(more) {
        Some(total) => Ok(total),
        None => Err(AllocError),
    }
}

impl Summed {
    // One more value. NULL adds nothing.
    #[tactic(auto, using(crate::proofs::Numbers::numbers))]
    fn add(&mut self, cell: Cell<'_>)
        requires room { HasRoom (Tally.Sum self.old) }
        requires bounded { IsBounded (cell_value cell) }
        ensures { self.new ≡ sum_with (cell_value cell.entry) self.old }
    {
        if !cell.is_null() {
            let number = cell.number().unwrap_or(0);
            self.count += 1;
            self.sum = Wide::new(self.sum.get() + number);
        }
    }

    // The counts and the sums of two parts. An error says that a count leaves 64 bits, or a sum 128.
    fn merge(&mut self, other: &Summed) -> Result<(), AllocError>
        ensures { OnOk result (self.new ≡ merged_sum self.old other.now) }
    {
        let count = added(self.count, other.count)?;
        let Some(sum) = self.sum.get().checked_add(other.sum.get()) else {
            return Err(AllocError);
        };
        self.count = count;
        self.sum = Wide::new(sum);
        Ok(())
    }

    // The sum, NULL over no value.
    fn sum_value(self) -> Value
        ensures { result ≡ sum_by_count self.count self.sum }
    {
        if self.count == 0 {
            return Value::Null;
        }
        Value::Num(self.sum.get())
    }

    // The sum and the count, NULL over no value.
    fn average(self) -> Value
        ensures { result ≡ average_by self.count self.sum }
    {
        if self.count == 0 {
            return Value::Null;
        }
        Value::Ratio(Pair::new(self.sum.get(), self.count))
    }
}

// The lesser of what is kept and a cell; NULL gives way. An error says that memory ran out.
#[tactic(auto, using(crate::proofs::Extremes::leasts))]
fn keep_lesser(alloc: Global, kept: &mut Value, cell: Cell<'_>) -> Result<(), AllocError>
    ensures { OnOk result (kept.new ≡ either_value lesser kept.old (cell_value cell.entry)) }
{
    if cell.compare(kept).is_lt() {
        *kept = cell.copy(alloc)?;
    }
    Ok(())
}

// Whether a cell takes the place of the greatest value so far.
fn is_above(kept: &Value, cell: Cell<'_>) -> bool
    ensures { result ≡ is_above kept.now (cell_value cell.entry) }
{
    !cell.is_null() && (kept.is_null() || cell.compare(kept).is_gt())
}

// The greater of what is kept and a cell; NULL gives way. An error says that memory ran out.
#[tactic(auto, using(crate::proofs::Extremes::greatests))]
fn keep_greater(alloc: Global, kept: &mut Value, cell: Cell<'_>) -> Result<(), AllocError>
    ensures { OnOk result (kept.new ≡ either_value greater kept.old (cell_value cell.entry)) }
{
    if is_above(kept, cell) {
        *kept = cell.copy(alloc)?;
    }
    Ok(())
}

impl Tally {
    /// What is kept before the first tuple.
    pub fn begun(agg: Agg) -> Tally
        ensures { result ≡ tally_by agg (acc_by 0 []) }
    {
        match agg {
            Agg::CountAll => Tally::Rows(0),
            Agg::Count(_) => Tally::Values(0),
            Agg::Sum(_) | Agg::Avg(_) => Tally::Sum(Summed {
                count: 0,
                sum: Wide::new(0),
            }),
            Agg::Min(_) => Tally::Least(Value::Null),
            Agg::Max(_) => Tally::Greatest(Value::Null),
        }
    }

    /// One more tuple, in which the aggregate's expression has this value. An error says that memory ran out.
    pub fn add(&mut self, alloc: Global, cell: Cell<'_>) -> Result<(), AllocError>
        requires room { HasRoom self.old }
        requires bounded { IsBounded (cell_value cell) }
        ensures { OnOk result (self.new ≡ tally_with (cell_value cell.entry) self.old) }
    {
        match self {
            Tally::Rows(rows) => *rows += 1,
            Tally::Values(count) => {
                if !cell.is_null() {
                    *count += 1;
                }
            }
            Tally::Sum(summed) => summed.add(cell),
            Tally::Least(value) => keep_lesser(alloc, value, cell)?,
            Tally::Greatest(value) => keep_greater(alloc, value, cell)?,
        }
        Ok(())
    }

    /// Puts what is kept of two parts of a group together. An error says that memory ran out, that a count leaves 64 bits, or a
    /// sum 128.
    pub fn merge(&mut self, alloc: Global, other: &Tally) -> Result<(), AllocError>
        ensures { OnOk result (self.new ≡ merged_tally self.old other.now) }
    {
        match (self, other) {
            (Tally::Rows(rows), Tally::Rows(more)) => *rows = added(*rows, *more)?,
            (Tally::Values(count), Tally::Values(more)) => *count = added(*count, *more)?,
            (Tally::Sum(summed), Tally::Sum(more)) => summed.merge(more)?,
            (Tally::Least(value), Tally::Least(more)) => {
                keep_lesser(alloc, value, Cell::Kept(more))?;
            }
            (Tally::Greatest(value), Tally::Greatest(more)) => {
                keep_greater(alloc, value, Cell::Kept(more))?;
            }
            _ => {}
        }
        Ok(())
    }

    /// The value of the aggregate: SUM, AVG, MIN and MAX are NULL over no value, as in the SQL language, and AVG is its sum and
    /// its count. An error says that memory ran out.
    pub fn value(&self, alloc: Global, agg: Agg) -> Result<Value, AllocError>
        ensures { IfOk result (λ v. v ≡ tally_value agg self.now) }
    {
        match self {
            Tally::Rows(count) | Tally::Values(count) => Ok(Value::Num(i128::from(*count))),
            Tally::Sum(summed) => match agg {
                Agg::Avg(_) => Ok(summed.average()),
                _ => Ok(summed.sum_value()),
            },
            Tally::Least(value) | Tally::Greatest(value) => value.copy(alloc),
        }
    }

    /// Whether the comparison of the aggregate's value with another is true, as in the SQL language.
    pub fn is_true_that(&self, agg: Agg, op: Op, other: &Value) -> bool
        ensures { result ≡ is_true_that (tally_value agg self.now) op other.now }
    {
        match self {
            Tally::Rows(count) | Tally::Values(count) => {
                Cell::Number(i128::from(*count)).is_true_that(op, other)
            }
            Tally::Sum(summed) => match agg {
                Agg::Avg(_) => Cell::Kept(&summed.average()).is_true_that(op, other),
                _ => Cell::Kept(&summed.sum_value()).is_true_that(op, other),
            },
            Tally::Least(value) | Tally::Greatest(value) => {
                Cell::Kept(value).is_true_that(op, other)
            }
        }
    }
}
