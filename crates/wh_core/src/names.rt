ghost use Rattle.std.specs.List.{find, list_any};
ghost use Rattle.std.specs.Prelude.{◌≡◌};
ghost use Rattle.wh_base.specs.Lists.{same_text};
ghost use Rattle.wh_core.specs.Asked.{is_taken, number_of};

use wh_base::tables::TableDef;
use wh_base::txt::Txt;
use wh_image::Image;
use wh_view::KeptView;

/// Whether a table has this name.
fn names_table(defs: &[TableDef], name: &Txt) -> bool
    ensures { result ≡ list_any (λ d. same_text name.now d.name) defs.now }
{
    defs.iter().any(|def| name.same_as(&def.name))
}

/// Whether a view has this name.
fn names_view(views: &[KeptView], name: &Txt) -> bool
    ensures { result ≡ list_any (λ k. same_text name.now k.view.def.name) views.now }
{
    views.iter().any(|view| name.same_as(view.name()))
}

/// Whether a table or a view has this name.
#[tactic(auto, using(crate::proofs::Naming::naming))]
pub(crate) fn is_taken<L>(image: &Image<L>, name: &Txt) -> bool
    ensures { result ≡ is_taken image.now.tables.tables.items image.now.views name.now }
{
    names_table(image.tables().as_slice(), name) || names_view(image.views.as_slice(), name)
}

/// The number of the view with this name.
pub(crate) fn number_of<L>(image: &Image<L>, name: &Txt) -> Option<u64>
    ensures { result ≡ number_of name.now image.now.views }
{
    match image.views.named(name) {
        Some(view) => Some(view.number()),
        None => None,
    }
}
