ghost use Rattle.std.specs.Prelude.{◌≡◌, ◌≤◌, ◌*◌, suc};
ghost use Rattle.std.specs.Ordering.{nat_cmp};
ghost use Rattle.wh_base.specs.Fraction.{cross_cmp};
ghost use Rattle.wh_base.specs.Values.{average_cmp, fraction_cmp};

use crate::pair::Pair;
use std::cmp::Ordering;

/// Compares a/c and b/d by their whole quotients and then by what remains, so that no product leaves 128 bits.
#[tactic(auto, using(crate::proofs::Quotients::by_quotient))]
fn compare_sizes(a: u128, c: u64, b: u128, d: u64) -> Ordering
    requires first { 1 ≤ c }
    requires second { 1 ≤ d }
    ensures { result ≡ nat_cmp (a * d) (b * c) }
{
    let c = u128::from(c);
    let d = u128::from(d);
    let left = a % c * d;
    let right = b % d * c;
    (a / c).cmp(&(b / d)).then(left.cmp(&right))
}

/// Compares the fractions a/c and b/d.
pub fn compare_fractions(a: i128, c: u64, b: i128, d: u64) -> Ordering
    requires first { 1 ≤ c }
    requires second { 1 ≤ d }
    ensures { result ≡ cross_cmp a c b d }
{
    let left = a.unsigned_abs();
    let right = b.unsigned_abs();
    match (a < 0, b < 0) {
        (false, false) => compare_sizes(left, c, right, d),
        (false, true) => Ordering::Greater,
        (true, false) => Ordering::Less,
        (true, true) => compare_sizes(right, d, left, c),
    }
}

/// The order of averages: as fractions, and then by count.
pub fn compare_pairs(p: &Pair, q: &Pair) -> Ordering
    ensures { result ≡ average_cmp p.now q.now }
{
    compare_fractions(p.sum(), p.count(), q.sum(), q.count()).then(p.count().cmp(&q.count()))
}
