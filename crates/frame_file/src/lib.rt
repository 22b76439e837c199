// The small program but for reading and writing: the tests of a frame file, its readings, and what is printed of it.
#![tactic(auto)]

pub mod answer;
pub mod file;
