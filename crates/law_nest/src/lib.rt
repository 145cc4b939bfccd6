//! Why a view over a view stores what its query gives over the rows of the view beneath. The functions do nothing: their contracts
//! are the laws.
#![tactic(auto)]

ghost use Rattle.law_nest.specs.Laws.{NestedMeans, NestedPlaces, NestedRolls};
ghost use Rattle.law_nest.specs.Sample.{SampleRolls};

/// What is stored of a composed definition is the query above over what is stored of the view beneath.
pub fn nested_rolls()
    ensures { NestedRolls }
{}

/// The same of two views over a base state.
pub fn nested_means()
    ensures { NestedMeans }
{}

/// The same by the two definitions alone, with the items of the view beneath at their places.
pub fn nested_places()
    ensures { NestedPlaces }
{}

/// The premises hold of a sample.
pub fn sample_rolls()
    ensures { SampleRolls }
{}
