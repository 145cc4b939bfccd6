//! The grammar of SELECT, of all other statements and of scripts: which tokens are which statement, and which bytes are
//! which script or have which fault first. Definitions alone.
#![tactic(auto)]
