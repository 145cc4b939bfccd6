//! What a legal journal means for a script.
ghost use Rattle.wh_order.specs.Laws.{Laws};

/// The laws of the order of a script's parts, in the words of `specs/Laws.antt`.
///
/// It does nothing. Its contract says that a script's own order is legal where no two sections have one number; and that
/// in each legal journal an entry is the next part of its session, an event adds its reply to those of its session, the
/// transcript is the text of the replies session by session, and sums and counts over the replies are those over the
/// replies of each session, added up.
pub fn laws()
    ensures { Laws }
{}
