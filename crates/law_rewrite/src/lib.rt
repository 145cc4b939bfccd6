//! Why a plan over an eligible view gives what the query means. None of these functions does anything: their contracts are the laws.
#![tactic(auto)]

ghost use Rattle.law_rewrite.specs.Answered.{AnswersMean};
ghost use Rattle.law_rewrite.specs.Chosen.{ChoiceMeans};
ghost use Rattle.law_rewrite.specs.Kept.{EnforcedOwe, KindsOwe};
ghost use Rattle.law_rewrite.specs.Laws.{ComposedFine, ConcatMeans, EligibleMeans, PlansMean, StarsFine, StillMeans, TextsMean};
ghost use Rattle.law_rewrite.specs.Read.{TextsOwe};
ghost use Rattle.law_rewrite.specs.Standing.{StandingMeans};

use law_text::laws;

/// A plan over a view of the same tables, with nothing joined back.
#[tactic(auto, using(crate::proofs::SameTables::eligible_means))]
pub fn eligible_law()
    ensures { EligibleMeans }
{}

/// A plan over an eligible view, without a text match, gives the query's meaning.
pub fn plans_mean()
    ensures { PlansMean }
{}

/// A text match gives the query's meaning.
pub fn texts_mean()
    ensures { TextsMean }
{}

/// A query that misses what is stale means the same.
pub fn still_means()
    ensures { StillMeans }
{}

/// An eligible view gives the query's meaning, for each class.
pub fn standing_means()
    ensures { StandingMeans }
{}

/// The rows of a view that is stale in part, with the query's tuples within what is stale, give the query's meaning.
pub fn concat_means()
    ensures { ConcatMeans }
{}

/// The plan that is chosen gives the query's meaning.
pub fn choice_means()
    ensures { ChoiceMeans }
{}

/// The rows of an answer are those that its plan gives.
pub fn answers_mean()
    ensures { AnswersMean }
{}

/// A query that is resolved is a star form.
pub fn stars_fine()
    ensures { StarsFine }
{}

/// Texts that read as queries have the star forms that the laws ask for, and where they match these are equal as far as they are to be.
pub fn texts_owe()
    ensures { TextsOwe }
{
    laws::same_parts();
    laws::same_stars();
    laws::same_from();
}

/// Under ENFORCED what every base state keeps is enough.
pub fn enforced_owe()
    ensures { EnforcedOwe }
{}

/// So is the composed definition of a view over a view.
pub fn composed_fine()
    ensures { ComposedFine }
{}

/// The products that a query counts are of numbers.
pub fn kinds_owe()
    ensures { KindsOwe }
{}
