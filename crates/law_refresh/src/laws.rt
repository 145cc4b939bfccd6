//! The laws of refreshes. None of these functions does anything: their contracts hold of every trace of every command, with all
//! its refusals.
ghost use Rattle.law_refresh.specs.Fast.{FastLaws};
ghost use Rattle.law_refresh.specs.Followed.{HistoryLaws};
ghost use Rattle.law_refresh.specs.Logged.{LogLaws};
ghost use Rattle.law_refresh.specs.Midway.{CommitLaws};
ghost use Rattle.law_refresh.specs.Parted.{PartLaws};
ghost use Rattle.law_refresh.specs.Planned.{PlanLaws};
ghost use Rattle.law_refresh.specs.SidesRead.{ReadLaws};

/// Without an ALTER TABLE a table is what its changes make of it.
pub fn tables_follow_their_changes()
    ensures { HistoryLaws }
{}

/// The rows of a log after its purge point read back as the changes of its table.
pub fn logs_tell_the_changes()
    ensures { ReadLaws }
{}

/// What a purge takes from a log was passed by each view that is registered on its table.
pub fn purges_wait_for_views()
    ensures { LogLaws }
{}

/// A view's definition is a star over tables that are there, each once, and uses columns that they have.
pub fn views_are_stars()
    ensures { PlanLaws }
{}

/// Where no restriction holds, a refresh by the root's log gives what the definition stores.
pub fn fast_refreshes_are_right()
    ensures { FastLaws }
{}

/// Where no restriction holds, a refresh by partitions gives what the definition stores.
pub fn partition_refreshes_are_right()
    ensures { PartLaws }
{}

/// What these laws say of the catalogs of traces they say of a catalog between the refreshes at a commit too.
pub fn commits_change_views_alone()
    ensures { CommitLaws }
{}
