//! Definitions alone, without code: a view over a view, its columns by their names and the definition that it stands for.
#![tactic(auto)]
