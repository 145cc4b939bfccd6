//! Definitions alone, without code: which views may answer a query now, the plan that is chosen,
//! its rows and the base rows that it reads.
#![tactic(auto)]
