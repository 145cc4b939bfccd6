//! Definitions alone, without code: when a view can serve a query by their forms
//! (root, joins, conditions, columns, aggregates, text), and the rows that it then gives.
#![tactic(auto)]
