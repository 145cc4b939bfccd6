//! What a block makes of a base state, what CREATE TABLE and ALTER TABLE make of it, and the first refusal of each.
//! Definitions and laws of them alone.
#![tactic(auto)]
