//! Why the indexes of keys and foreign keys tell what the definitions ask of whole tables. Nothing here does anything: the
//! contracts hold of every table and all changes of its rows.
#![tactic(auto)]

ghost use Rattle.law_keys.specs.Laws.{ForeignLaws, KeyLaws};

/// What the index of a key says of a statement's changes is what the definition asks of the whole table after them.
pub fn keys_are_told()
    ensures { KeyLaws }
{}

/// What the indexes say of a statement's changes is what the definition asks of all parents and children after them.
pub fn foreign_keys_are_told()
    ensures { ForeignLaws }
{}
