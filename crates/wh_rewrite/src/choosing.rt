ghost use Rattle.std.specs.Prelude.{◌≡◌, IfOk, None, option_copied};
ghost use Rattle.def_choice.specs.Choice.{choice, class_is_built};
ghost use Rattle.def_choice.specs.Eligible.{asks_freshness, holds_e9};
ghost use Rattle.def_history.specs.Catalog.{Catalog};
ghost use Rattle.wh_image.specs.Standing.{StandsFor};
ghost use Rattle.wh_rewrite.specs.Served.{IsFullPlan, best_from, is_fresh, lesser, plan_by, plan_over, serves};

use crate::full_text::is_full_text;
use crate::staleness::kept_state;
use std::alloc::{AllocError, Global};
use wh_base::queries::StarQuery;
use wh_base::seq::Seq;
use wh_base::statements::Level;
use wh_base::tokens::Token;
use wh_base::views::{Class, Plan, ViewPlan, ViewState};
use wh_image::Image;
use wh_table::Tables;
use wh_view::KeptView;

/// The plan of a query with these tokens: the view with the fewest entries, of equals the one created first, among those whose
/// text is the query's up to ORDER BY, that are built, enabled and FRESH; STALE_TOLERATED doesn't ask that they are FRESH. BASE
/// where there is none, where the session has rewrite disabled, or where the query has AS OF. It reads no base rows. An error
/// says that memory ran out. Full text match and the three levels are those of query rewrite in the Data Warehousing Guide;
/// that the number of entries decides is this project's own rule.
pub fn choose<L>(
    alloc: Global,
    image: &Image<L>,
    query: &StarQuery,
    text: &[Token],
    level: Level,
    enabled: bool,
) -> Result<Plan, AllocError>
    ensures chosen { (c : Catalog) → StandsFor image.now.tables.scn image.now.tables.tables.items image.now.views c → IfOk result (λ plan. plan ≡ choice class_is_built c query.now text.now level enabled) }
    ensures full { IfOk result IsFullPlan }
{
    plan_of_views(alloc, image, query, text, level, enabled)
}

// The plan over the best of an image's views.
fn plan_of_views<L>(
    alloc: Global,
    image: &Image<L>,
    query: &StarQuery,
    text: &[Token],
    level: Level,
    enabled: bool,
) -> Result<Plan, AllocError>
    ensures { IfOk result (λ plan. plan ≡ plan_by (best_from (serves image.now.tables.tables.items query.now text.now level enabled) None image.now.views.views)) }
{
    let views = image.views.as_slice();
    match best_of(views, &image.tables, query, text, level, enabled) {
        Some(view) => plan_over(alloc, view),
        None => Ok(Plan::Base),
    }
}

// The first view with the fewest entries among those that serve.
fn best_of<'a, L>(
    views: &'a [KeptView],
    tables: &Tables<L>,
    query: &StarQuery,
    text: &[Token],
    level: Level,
    enabled: bool,
) -> Option<&'a KeptView>
    ensures { option_copied result ≡ best_from (serves tables.now.tables.items query.now text.now level enabled) None views.now }
{
    let mut best = None;
    for view in views {
        if serves(view, tables, query, text, level, enabled) {
            best = lesser(best, view);
        }
    }
    best
}

// The view with fewer entries, of equals the one that was there.
fn lesser<'a>(best: Option<&'a KeptView>, view: &'a KeptView) -> Option<&'a KeptView>
    ensures { option_copied result ≡ lesser (option_copied best.entry) view.now }
{
    match best {
        None => Some(view),
        Some(kept) => {
            if view.entries().len() < kept.entries().len() {
                Some(view)
            } else {
                Some(kept)
            }
        }
    }
}

// Whether the view may answer the query, as what is stored tells it. The text is asked last, since it is dearest.
fn serves<L>(
    view: &KeptView,
    tables: &Tables<L>,
    query: &StarQuery,
    text: &[Token],
    level: Level,
    enabled: bool,
) -> bool
    ensures { result ≡ serves tables.now.tables.items query.now text.now level enabled view.now }
{
    if !is_enabled(view, query, enabled) {
        return false;
    }
    if asks_freshness(level) && !is_fresh(kept_state(view, tables)) {
        return false;
    }
    is_full_text(text, view.tokens().as_slice())
}

// The view is built and enabled, the session has rewrite enabled, and the query has no AS OF.
fn is_enabled(view: &KeptView, query: &StarQuery, enabled: bool) -> bool
    ensures { result ≡ holds_e9 query.now enabled view.now.view }
{
    view.point().is_some() && (view.rewrite() && (enabled && query.as_of.is_none()))
}

// Whether a view has to be fresh at this level.
fn asks_freshness(level: Level) -> bool
    ensures { result ≡ asks_freshness level }
{
    match level {
        Level::Enforced => true,
        Level::Trusted => true,
        Level::StaleTolerated => false,
    }
}

fn is_fresh(state: ViewState) -> bool
    ensures { result ≡ is_fresh state }
{
    match state {
        ViewState::Unbuilt => false,
        ViewState::Fresh => true,
        ViewState::Partly => false,
        ViewState::Stale => false,
    }
}

// The plan over this view, with a copy of its name.
fn plan_over(alloc: Global, view: &KeptView) -> Result<Plan, AllocError>
    ensures { IfOk result (λ plan. plan ≡ plan_over view.now) }
{
    Ok(Plan::View(ViewPlan {
        class: Class::Full,
        view: view.number(),
        name: view.name().copy(alloc)?,
        point: view.point().unwrap_or(0),
        back: Seq::new(alloc),
    }))
}
