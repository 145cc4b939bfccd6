//! Dimensions: what CREATE DIMENSION makes or why it is refused, which columns a level determines, when the declared
//! relations hold, and which rows break them. Definitions alone.
#![tactic(auto)]
