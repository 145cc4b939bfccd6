//! What a log means.
ghost use Rattle.wh_log.specs.Laws.{Laws};

use crate::log::MvLog;

/// The laws of the log: what its calls make of it, in the words of `specs/Laws.antt`.
///
/// It does nothing. Its contract says that a log which noted the changes of its table holds exactly the rows that the
/// definition of a log gives for them, also after purges, and that `suffix` then misses none of them.
pub fn laws(_log: &MvLog)
    ensures { Laws }
{}
