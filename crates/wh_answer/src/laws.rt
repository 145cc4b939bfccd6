//! What is so of images and of the steps of the definitions. None of these functions does anything.
ghost use Rattle.wh_answer.specs.Answered.{IsKnown, Selects, ShowsViews};

use law_trace::laws::rows_are_right;
use law_views::laws::{tables_have_sizes, views_are_of_texts};
use wh_image::Image;
use wh_table::tables_law;

/// What an image is known for: each query that resolves over the tables of its catalog can be evaluated over it, and so can
/// the query of each of its views. The rows found are those of the catalog's base state, and 64 tables of 262,144 rows each are
/// read at the most.
pub fn known<L>(image: &Image<L>)
    ensures { IsKnown image.now.tables.scn image.now.tables.tables.items image.now.views }
{
    tables_law(&image.tables);
    rows_are_right();
    tables_have_sizes();
    views_are_of_texts();
}

/// The step of a SELECT under ENFORCED is what `select` computes.
pub fn selects_agree()
    ensures { Selects }
{}

/// The step of SHOW VIEW is what `show_view` computes.
pub fn shows_agree()
    ensures { ShowsViews }
{}
