ghost use Rattle.std.specs.Prelude.{◌≡◌, ◌≤◌, ◌↔◌, IsTrue, pred, suc};

use crate::wide::Wide;
use std::marker::Model;

/// What AVG gives: a sum and the count of its values, which is at least 1. Contracts see the sum and how many values
/// there are beside the first.
#[derive(Clone, Copy, Debug, PartialEq, Eq, Hash)]
pub struct Pair {
    sum: Wide,
    count: u64,
}

impl Model for Pair {
    ghost use Rattle.std.specs.Prelude.{◌≤◌, pred, suc};
    ghost use Rattle.wh_base.specs.Average.{Average, one_more};

    ghost Value = { Average };

    ghost view = { λ p. record { sum = p.sum; more = pred p.count } };

    ghost invariant = { λ p. 1 ≤ p.count };

    ghost inverse = { λ a. record { sum = a.sum; count = suc a.more } };

    ghost inverse_ok = { λ a h. one_more (λ n. record { sum = a.sum; count = n }) a.count h };
}

impl Pair {
    /// The average of `count` values with this sum.
    pub fn new(sum: i128, count: u64) -> Pair
        requires { 1 ≤ count }
        ensures { result ≡ record { sum = sum; more = pred count } }
    {
        Pair {
            sum: Wide::new(sum),
            count,
        }
    }

    /// The sum of the values.
    pub fn sum(&self) -> i128
        ensures { result ≡ self.now.sum }
    {
        self.sum.get()
    }

    /// How many values there are, at least 1.
    pub fn count(&self) -> u64
        ensures { result ≡ suc self.now.more }
    {
        self.count
    }

    /// Whether the two are one pair.
    pub fn is(&self, other: &Pair) -> bool
        ensures { IsTrue result ↔ (self.now ≡ other.now) }
    {
        self.sum() == other.sum() && self.count == other.count
    }
}
