//! What a register means.
ghost use Rattle.wh_register.specs.Laws.{Laws};

use crate::register::Register;

/// The laws of the register: what its purge point means, in the words of `specs/Laws.antt`.
///
/// It does nothing. Its contract says that the purge point of a register which stands for the views of a catalog is the one
/// that the definition of PURGE LOG takes.
pub fn laws(_register: &Register)
    ensures { Laws }
{}
