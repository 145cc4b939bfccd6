ghost use Rattle.std.specs.Prelude.{◌≡◌, ◌↔◌, IfOk, IsTrue, refl};
ghost use Rattle.std.specs.Cmp;
ghost use Rattle.std.specs.Cmp.{partial_order_from_total, eq_by_cmp_equiv};
ghost use Rattle.std.specs.Ordering.{eq_by_cmp, as_partial_cmp};
ghost use Rattle.std.proofs.Common.{ap};
ghost use Rattle.wh_base.specs.Values.{value_cmp, kind_rank, is_null};
ghost use Rattle.wh_base.specs.ValueLaws.{value_total, equal_values, hashed};

use crate::day::Day;
use crate::fraction::compare_pairs;
use crate::pair::Pair;
use crate::seq::Seq;
use crate::txt::Txt;
use crate::wide::Wide;
use std::alloc::{AllocError, Global};
use std::cmp::Ordering;
use std::hash::{Hash, Hasher};

/// A value of a row: NULL, a whole number, a text of at least one byte, what AVG gives, or a day.
#[derive(Debug, Drop)]
pub enum Value {
    Null,
    Num(i128),
    Text(Txt),
    Ratio(Pair),
    Day(Day),
}

/// A literal of a statement, as it is written. A quoted text of no bytes stands for NULL, as in Oracle's SQL.
#[derive(Debug, Drop)]
pub enum Literal {
    Number(Wide),
    Quoted(Txt),
    Dated(Day),
}

/// The version of a transcript. The first prints a day as its number, the second as a date.
#[derive(Clone, Copy, Debug, PartialEq, Eq)]
pub enum Version {
    One,
    Two,
}

/// A comparison.
#[derive(Clone, Copy, Debug)]
pub enum Op {
    Eq,
    Ne,
    Lt,
    Le,
    Gt,
    Ge,
}

/// Values from `lo` up to and without `hi`; `None` is no bound.
#[derive(Debug, Drop)]
pub struct Interval {
    pub lo: Option<Value>,
    pub hi: Option<Value>,
}

/// The rows of an answer.
pub type Rows = Seq<Seq<Value>>;

impl Value {
    /// The same value. An error says that memory ran out.
    pub fn copy(&self, alloc: Global) -> Result<Value, AllocError>
        ensures { IfOk result (λ v. v ≡ self.now) }
    {
        match self {
            Value::Null => Ok(Value::Null),
            Value::Num(n) => Ok(Value::Num(*n)),
            Value::Text(t) => Ok(Value::Text(t.copy(alloc)?)),
            Value::Ratio(p) => Ok(Value::Ratio(*p)),
            Value::Day(d) => Ok(Value::Day(*d)),
        }
    }

    /// The order of values: numbers by size, then texts by bytes, then days by their numbers, then averages as fractions
    /// and by count, NULL last.
    pub fn compare(&self, other: &Value) -> Ordering
        ensures { result ≡ value_cmp self.now other.now }
    {
        match (self, other) {
            (Value::Num(m), Value::Num(n)) => m.cmp(n),
            (Value::Text(s), Value::Text(t)) => s.cmp(t),
            (Value::Ratio(p), Value::Ratio(q)) => compare_pairs(p, q),
            (Value::Day(c), Value::Day(d)) => c.number().cmp(&d.number()),
            _ => self.rank().cmp(&other.rank()),
        }
    }

    fn rank(&self) -> u8
        ensures { result ≡ kind_rank self.now }
    {
        match self {
            Value::Num(_) => 0,
            Value::Text(_) => 1,
            Value::Day(_) => 2,
            Value::Ratio(_) => 3,
            Value::Null => 4,
        }
    }

    /// Whether the two are one value.
    pub fn is(&self, other: &Value) -> bool
        ensures { IsTrue result ↔ (self.now ≡ other.now) }
    {
        match (self, other) {
            (Value::Null, Value::Null) => true,
            (Value::Num(m), Value::Num(n)) => m == n,
            (Value::Text(s), Value::Text(t)) => s.is(t.as_slice()),
            (Value::Ratio(p), Value::Ratio(q)) => p.is(q),
            (Value::Day(c), Value::Day(d)) => c.is(*d),
            _ => false,
        }
    }

    /// Whether it is NULL.
    pub fn is_null(&self) -> bool
        ensures { result ≡ is_null self.now }
    {
        matches!(self, Value::Null)
    }
}

impl PartialEq for Value {
    ghost eq = { eq_by_cmp value_cmp };

    ghost laws = { Cmp.partial_equiv_from_equiv (eq_by_cmp_equiv value_total) };

    fn eq(&self, other: &Value) -> bool {
        self.compare(other).is_eq()
    }
}

impl Eq for Value {
    ghost laws = { eq_by_cmp_equiv value_total };
}

impl PartialOrd for Value {
    ghost partial_cmp = { as_partial_cmp value_cmp };

    ghost laws = { partial_order_from_total value_total };

    fn partial_cmp(&self, other: &Value) -> Option<Ordering> {
        Some(self.compare(other))
    }
}

impl Ord for Value {
    ghost cmp = { value_cmp };

    ghost total = { value_total };

    ghost matches_partial_cmp = { λ x y. refl };

    ghost matches_eq = { λ x y. refl };

    fn cmp(&self, other: &Value) -> Ordering {
        self.compare(other)
    }
}

impl Hash for Value {
    ghost hash_input = { hashed };

    ghost respects_eq = { λ x y h. ap hashed (equal_values x y h) };

    fn hash<H: Hasher>(&self, state: &mut H) {
        match self {
            Value::Null => state.write_u8(0),
            Value::Num(n) => n.hash(state),
            Value::Text(t) => t.hash(state),
            Value::Ratio(p) => p.count().hash(state),
            Value::Day(d) => d.number().hash(state),
        }
    }
}
