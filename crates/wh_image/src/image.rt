ghost use Rattle.std.specs.Prelude.{◌≡◌, IfOk};
ghost use Rattle.def_history.specs.Catalog.{empty_catalog};
ghost use Rattle.wh_image.specs.Standing.{StandsFor};
ghost use Rattle.wh_table.specs.Kept.{defs_of};

use std::alloc::{AllocError, Global};
use wh_base::seq::Seq;
use wh_base::tables::TableDef;
use wh_table::Tables;
use wh_view::Views;

/// The tables and the views of a catalog at an SCN. A copy shares rows, definitions and entries, so it costs the lists of
/// chunks, tables and views alone.
#[derive(Drop)]
pub struct Image<L> {
    pub tables: Tables<L>,
    pub views: Views,
}

impl<L> Image<L> {
    /// The empty catalog, at SCN 0. An error says that memory ran out.
    #[tactic(auto, using(crate::proofs::Beginning::beginning))]
    pub fn new(alloc: Global) -> Result<Image<L>, AllocError>
        ensures { IfOk result (λ i. StandsFor i.tables.scn i.tables.tables.items i.views empty_catalog) }
    {
        Ok(Image {
            tables: Tables::new(alloc)?,
            views: Views::new(alloc),
        })
    }

    /// The SCN at which it is read.
    pub fn scn(&self) -> u64
        ensures { result ≡ self.now.tables.scn }
    {
        self.tables.scn()
    }

    /// The definitions of the tables, in the order of creation.
    pub fn tables(&self) -> &Seq<TableDef>
        ensures { result.now ≡ defs_of self.now.tables.tables.items }
    {
        self.tables.defs()
    }

    /// The same image. An error says that memory ran out.
    pub fn copy(&self, alloc: Global) -> Result<Image<L>, AllocError>
        ensures scn { IfOk result (λ i. i.tables.scn ≡ self.now.tables.scn) }
        ensures tables { IfOk result (λ i. i.tables.tables.items ≡ self.now.tables.tables.items) }
        ensures views { IfOk result (λ i. i.views ≡ self.now.views) }
    {
        Ok(Image {
            tables: self.tables.copy(alloc)?,
            views: self.views.copy(alloc)?,
        })
    }
}
