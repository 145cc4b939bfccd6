//! Scripts from their bytes, exactly as the grammar has them. `script::read_script` goes over the bytes piece by piece: texts,
//! directives, LOAD blocks and the end. Below it are the lines and directives, the records of LOAD blocks, and the draft of
//! what was read so far, which takes statements, directives and LOAD blocks one after another.
#![tactic(auto)]

pub mod blocks;
pub mod built;
pub mod directives;
pub mod draft;
mod ending;
pub mod fault;
pub mod lines;
pub mod load;
pub mod order;
mod pieces;
pub mod reading;
pub mod script;
pub mod text;
mod view_names;
