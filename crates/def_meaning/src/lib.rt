//! What a query means over lists of rows: its tuples, its groups, what a view of it stores, the rows of its answer,
//! and how many base rows the base plan reads. Definitions and laws of them alone.
#![tactic(auto)]
