//! Definitions alone, without code: the catalog with all its past,
//! and what the past says of the content and freshness of views, of the rows of logs and of row versions.
#![tactic(auto)]
