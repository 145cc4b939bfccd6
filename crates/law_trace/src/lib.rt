//! What a trace leaves as it was: the laws of the definitions that let the newest rows and the images of sessions stand for all
//! of the past.
#![tactic(auto)]

pub mod laws;
