//! What a segment means.
ghost use Rattle.wh_segment.specs.Laws.{Laws};

use crate::segment::Segment;

/// The laws of a segment: what its calls mean for the rows that are there at an SCN, in the words of `specs/Laws.antt`.
///
/// It does nothing. Its contract says that an appended version adds its row from its SCN on, that an ended one takes it away
/// from that SCN on, and that a purge changes no row at its SCN or after it.
pub fn laws<L>(_segment: &Segment<L>)
    ensures { Laws }
{}
