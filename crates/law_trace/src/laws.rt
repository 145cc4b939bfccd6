//! The laws of traces, in the words of `specs/Laws.antt`. None of these functions does anything: their contracts hold of every
//! trace of every command, with all its refusals.
ghost use Rattle.law_trace.specs.Laws.{BaseLaws, ChangeLaws, ImageLaws, InstallLaws, NestLaws, RowLaws, SessionLaws, TableLaws, UntouchedLaws, VersionLaws, ViewLaws};

/// An event of a session leaves every other session as it is.
pub fn sessions_stand_apart()
    ensures { SessionLaws }
{}

/// The SCN never falls, and the base state at an SCN that was reached stays.
pub fn the_past_stays()
    ensures { BaseLaws }
{}

/// The changes and touches up to an SCN that was reached stay.
pub fn changes_stay()
    ensures { ChangeLaws }
{}

/// A view's number is its own for ever, and all of its definition but `rewrite` stays.
pub fn views_stay()
    ensures { ViewLaws }
{}

/// A view over a view is never registered, and the view beneath is there.
pub fn nested_views_stand()
    ensures { NestLaws }
{}

/// What a session keeps of the catalog is the catalog of a front of the trace.
pub fn images_were_catalogs()
    ensures { ImageLaws }
{}

/// Tables only come, and the names of all objects differ.
pub fn tables_stay()
    ensures { TableLaws }
{}

/// What a refresh computes over its image is what its view stores at the image's SCN, as long as the view is there.
pub fn installs_are_right()
    ensures { InstallLaws }
{}

/// The rows of every table meet all that its definition asks of them.
pub fn rows_are_right()
    ensures { RowLaws }
{}

/// A table changes by commits and by ALTER TABLE alone.
pub fn changes_are_of_commits()
    ensures { UntouchedLaws }
{}

/// A block adds to the row versions that are kept those that it makes.
pub fn versions_are_counted()
    ensures { VersionLaws }
{}
