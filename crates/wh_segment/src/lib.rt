//! The versions of the rows of a table, in chunks that copies share.
#![tactic(auto)]

mod chunk;
mod chunk_list;
mod meaning;
mod segment;
mod shared_list;
mod version;

pub use meaning::laws;
pub use segment::Segment;
pub use version::Version;
