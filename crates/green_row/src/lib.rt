// Green of a row, from buffers of differences, gradients and direction sums.
#![tactic(auto)]

pub mod along;
pub mod directions;
pub mod extend;
pub mod fuse;
pub mod room;
pub mod sums;
