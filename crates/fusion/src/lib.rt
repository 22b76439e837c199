// Fusion at one pixel, in 64-bit floats that hold whole numbers: a division of such is quicker than one of integers, and a compiler makes several at once.
#![tactic(auto)]

pub mod mean;
pub mod pixel;
pub mod share;
