//! Which scripts the program runs so far: the table of the forms that are built, and the conditions that hold for a time. A
//! script is read by the words of the whole grammar, and what is built of it is a test on what was read.
#![tactic(auto)]

pub mod forms;
