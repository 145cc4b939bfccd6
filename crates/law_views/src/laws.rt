//! The laws of views, in the words of `specs/Laws.antt`. None of these functions does anything: their contracts hold of every
//! trace of every command, with all its refusals; some ask that the trace is one whose texts read as what it asks.
ghost use Rattle.law_views.specs.Laws.{Answers, SessionsArePlain, TableSizes, ViewTexts};

use law_text::laws::{later_tables, same_parts, same_rows, same_stars};

/// There are 64 tables at most, and numbers and texts have their sizes.
pub fn tables_have_sizes()
    ensures { TableSizes }
{}

/// Every view is what its text reads as, over the tables that were there when it was made, and so over the tables of now.
pub fn views_are_of_texts()
    ensures { ViewTexts }
{
    later_tables();
}

/// A view that is chosen under ENFORCED stores what the query means.
pub fn views_answer()
    ensures { Answers }
{
    later_tables();
    same_parts();
    same_stars();
    same_rows();
}

/// Without ALTER SESSION and SET TRANSACTION every session is as it began.
pub fn plain_sessions()
    ensures { SessionsArePlain }
{}
