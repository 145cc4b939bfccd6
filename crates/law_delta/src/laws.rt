//! The laws of deltas. None of these functions does anything.
ghost use Rattle.law_delta.specs.Laws.{DeltaLaws};

/// What a view stores after changes is determined by what it stored and the changed tuples.
pub fn deltas_are_right()
    ensures { DeltaLaws }
{}
