//! What the laws say of lists in general: of each element, of counts, of groups and of the folds over their values. All of it is in
//! `proofs/`.
#![tactic(auto)]
