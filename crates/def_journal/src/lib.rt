//! Definitions alone, without code: the state that a journal stands for, the step of each entry with its reply,
//! when a journal is legal for a script, and the journal of its order.
#![tactic(auto)]
