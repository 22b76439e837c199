// Strip calls: red, green and blue of some rows of a frame, from a piece of its mosaic.
#![tactic(auto)]

pub mod check;
pub mod entry;
pub mod preview;
pub mod strip;
