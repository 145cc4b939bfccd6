//! What is so of views over views, and of refreshes of lists, after every trace. The functions do nothing: their contracts are the
//! laws.
#![tactic(auto)]

ghost use Rattle.law_nest_trace.specs.Laws.{NestedStand};
ghost use Rattle.law_nest_trace.specs.Rolls.{ListsRoll, OneRolls};
ghost use Rattle.law_nest_trace.specs.Lists.{ListsMove, TracesMoveLists};

/// Each view over a view is composed over it, and holds what its query gives over what the view beneath stores at its point.
pub fn nested_stand()
    ensures { NestedStand }
{}

/// The install of a list moves all of its views or none.
pub fn lists_move()
    ensures { ListsMove }
{}

/// So it is at the install of every list after every trace.
pub fn traces_move_lists()
    ensures { TracesMoveLists }
{}

/// What a list computes of a view over a view is its query over the new rows beneath, where the view beneath is listed too.
pub fn lists_roll()
    ensures { ListsRoll }
{}

/// What the refresh of one view over a view computes is its query over what the view beneath holds.
pub fn one_rolls()
    ensures { OneRolls }
{}
