//! The laws of images, in the words of `specs/Laws.antt`. None of these functions does anything: their contracts hold of every
//! image.
ghost use Rattle.wh_image.specs.Laws.{Lookups, Shows, TableChanges, ViewChanges};

/// What is looked up by its name or its number in the catalog is found in the image that is this catalog.
pub fn lookups_agree()
    ensures { Lookups }
{}

/// The image after a switch, an unregistration, a drop, a refresh or a creation of a view is the catalog after it.
pub fn views_follow()
    ensures { ViewChanges }
{}

/// The image after the creation of a table or a commit is the catalog after it.
pub fn tables_follow()
    ensures { TableChanges }
{}

/// SHOW VIEW over the catalog is what the tables and the entries of the image say.
pub fn shows_agree()
    ensures { Shows }
{}
