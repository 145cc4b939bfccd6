ghost use Rattle.std.specs.Prelude.{◌≡◌, ◌++◌, IfOk, List, OnOk, flat_map, ℕ};
ghost use Rattle.wh_base.specs.Lists.{count_from};

use crate::again::Again;
use std::alloc::{AllocError, Global};
use wh_base::seq::Seq;

/// A list for each number.
pub(crate) trait Series {
    type Item: Drop;

    /// The list of a number.
    ghost items: { Self → ℕ → List Self.Item };

    /// The list of a number at the end of `all`. An error says that memory ran out.
    fn push_items(
        &self,
        alloc: Global,
        number: u32,
        all: &mut Seq<Self::Item>,
    ) -> Result<(), AllocError>
        ensures { OnOk result (all.new ≡ all.old ++ items self.now number) };
}

/// The lists of the first numbers from 0 on, so many of them, one after another. An error says that memory ran out.
#[tactic(auto, using(crate::proofs::Counting::counted))]
pub(crate) fn lists_of<S: Series>(
    alloc: Global,
    count: u32,
    series: &S,
) -> Result<Seq<S::Item>, AllocError>
    ensures { IfOk result (λ all. all ≡ flat_map (S.items series.now) (count_from 0 count)) }
{
    let mut all = Seq::from_vec(Vec::with_capacity(alloc, count as usize)?)?;
    for number in 0..count {
        series.push_items(alloc, number, &mut all)?;
    }
    Ok(all)
}

/// The same items for each number.
impl<T: Again + Drop> Series for Seq<T> {
    type Item = T;

    ghost items = { λ turn number. turn };

    fn push_items(&self, _alloc: Global, _number: u32, all: &mut Seq<T>) -> Result<(), AllocError> {
        for item in self.as_slice() {
            all.push(item.again()?)?;
        }
        Ok(())
    }
}
