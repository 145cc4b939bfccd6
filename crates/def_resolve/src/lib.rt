//! The star form of a query over the tables that are there, or the first refusal of the query (MV-02, MV-03, MV-04,
//! MV-17, MV-18), and what refusals in turn mean for a list. Definitions and laws of them alone.
#![tactic(auto)]
