ghost use Rattle.std.specs.Prelude.{◌≡◌, ◌<◌, ◌^◌, ◌*ℤ◌, nat_abs, IfOk, IsTrue};
ghost use Rattle.wh_base.specs.Values.{compared, equal_not_null, is_null, is_small, is_true_that, op_holds, product_value, same_value, value_cmp};
ghost use Rattle.wh_tuple.specs.Meant.{cell_value, number_in};

use std::alloc::{AllocError, Global};
use std::cmp::Ordering;
use wh_base::fraction::compare_fractions;
use wh_base::values::{Op, Value};

/// A value that stands in a row, a number that doesn't stand anywhere, or NULL.
#[derive(Clone, Copy)]
pub enum Cell<'a> {
    Kept(&'a Value),
    Number(i128),
    Null,
}

// How two values compare, none where one is NULL. An average and a number compare as fractions.
fn compared(left: &Value, right: &Value) -> Option<Ordering>
    ensures { result ≡ compared left.now right.now }
{
    match (left, right) {
        (Value::Null, _) => None,
        (_, Value::Null) => None,
        (Value::Num(m), Value::Ratio(b)) => Some(compare_fractions(*m, 1, b.sum(), b.count())),
        (Value::Ratio(a), Value::Num(n)) => Some(compare_fractions(a.sum(), a.count(), *n, 1)),
        _ => Some(left.compare(right)),
    }
}

// Whether a comparison comes out so.
fn op_holds(op: Op, order: Ordering) -> bool
    ensures { result ≡ op_holds op order }
{
    match op {
        Op::Eq => order.is_eq(),
        Op::Ne => order.is_ne(),
        Op::Lt => order.is_lt(),
        Op::Le => order.is_le(),
        Op::Gt => order.is_gt(),
        Op::Ge => order.is_ge(),
    }
}

// Whether the comparison of two values is true.
fn is_true_that(left: &Value, op: Op, right: &Value) -> bool
    ensures { result ≡ is_true_that left.now op right.now }
{
    match compared(left, right) {
        Some(order) => op_holds(op, order),
        None => false,
    }
}

// Whether two values are one.
#[tactic(auto, using(crate::proofs::Cells::sameness))]
fn is_same(left: &Value, right: &Value) -> bool
    ensures { result ≡ same_value left.now right.now }
{
    left.is(right)
}

// The product of two numbers below 10^15 in size.
fn multiplied(left: i128, right: i128) -> i128
    requires left { nat_abs left < 10 ^ 15 }
    requires right { nat_abs right < 10 ^ 15 }
    ensures { result ≡ left *ℤ right }
{
    left * right
}

impl<'a> Cell<'a> {
    /// Whether it is NULL.
    pub fn is_null(self) -> bool
        ensures { result ≡ is_null (cell_value self.entry) }
    {
        match self {
            Cell::Kept(value) => value.is_null(),
            Cell::Number(_) => false,
            Cell::Null => true,
        }
    }

    /// The place of the two in the order of values: numbers by size, then texts by bytes, then days by their numbers, then
    /// averages as fractions and by count, NULL last.
    pub fn compare(self, other: &Value) -> Ordering
        ensures { result ≡ value_cmp (cell_value self.entry) other.now }
    {
        match self {
            Cell::Kept(value) => value.compare(other),
            Cell::Number(number) => Value::Num(number).compare(other),
            Cell::Null => Value::Null.compare(other),
        }
    }

    /// The same between two cells.
    pub fn compare_cell(self, other: Cell<'_>) -> Ordering
        ensures { result ≡ value_cmp (cell_value self.entry) (cell_value other.entry) }
    {
        match other {
            Cell::Kept(value) => self.compare(value),
            Cell::Number(number) => self.compare(&Value::Num(number)),
            Cell::Null => self.compare(&Value::Null),
        }
    }

    /// Whether it is this value; NULL is NULL here.
    pub fn is(self, other: &Value) -> bool
        ensures { result ≡ same_value (cell_value self.entry) other.now }
    {
        match self {
            Cell::Kept(value) => is_same(value, other),
            Cell::Number(number) => is_same(&Value::Num(number), other),
            Cell::Null => is_same(&Value::Null, other),
        }
    }

    /// Whether the two are one value and not NULL, as a join wants it.
    pub fn joins(self, other: Cell<'_>) -> bool
        ensures { result ≡ equal_not_null (cell_value self.entry) (cell_value other.entry) }
    {
        !self.is_null()
            && match other {
                Cell::Kept(value) => self.is(value),
                Cell::Number(number) => self.is(&Value::Num(number)),
                Cell::Null => self.is(&Value::Null),
            }
    }

    /// Whether the comparison is true, as in the SQL language: none with NULL is. A number and an average compare as
    /// fractions; that values of other kinds compare in the order of values is this project's own rule.
    pub fn is_true_that(self, op: Op, other: &Value) -> bool
        ensures { result ≡ is_true_that (cell_value self.entry) op other.now }
    {
        match self {
            Cell::Kept(value) => is_true_that(value, op, other),
            Cell::Number(number) => is_true_that(&Value::Num(number), op, other),
            Cell::Null => false,
        }
    }

    /// The number that it is, where it is one.
    pub fn number(self) -> Option<i128>
        ensures { result ≡ number_in (cell_value self.entry) }
    {
        match self {
            Cell::Kept(Value::Num(number)) => Some(*number),
            Cell::Number(number) => Some(number),
            _ => None,
        }
    }

    /// The product of two numbers below 10^15 in size, NULL where one of the two is no number.
    #[tactic(auto, using(crate::proofs::Cells::products))]
    pub fn times(self, other: Cell<'_>) -> Cell<'a>
        requires left { IsTrue (is_small (cell_value self)) }
        requires right { IsTrue (is_small (cell_value other)) }
        ensures { cell_value result ≡ product_value (cell_value self.entry) (cell_value other.entry) }
    {
        match (self.number(), other.number()) {
            (Some(left), Some(right)) => Cell::Number(multiplied(left, right)),
            _ => Cell::Null,
        }
    }

    /// The value, in memory of its own. An error says that memory ran out.
    pub fn copy(self, alloc: Global) -> Result<Value, AllocError>
        ensures { IfOk result (λ v. v ≡ cell_value self.entry) }
    {
        match self {
            Cell::Kept(value) => value.copy(alloc),
            Cell::Number(number) => Ok(Value::Num(number)),
            Cell::Null => Ok(Value::Null),
        }
    }
}
