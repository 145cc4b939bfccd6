//! Images of a catalog: what a session reads while others go on.
#![tactic(auto)]

mod image;
pub mod laws;

pub use image::Image;
