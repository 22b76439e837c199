// The lines that a program prints of three planes, or of a refusal, as a value that can be put into a lent buffer.
#![tactic(auto)]

pub mod statistics;
pub mod text;
