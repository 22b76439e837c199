// Test frames that anyone can make from a seed: the generator, jumps, the whole frame and one row of it.
#![tactic(auto)]

pub mod frame;
pub mod generator;
pub mod jump;
