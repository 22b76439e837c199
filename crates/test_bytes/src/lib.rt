// The small program of test frames but for reading and writing: the nine bytes that name a frame, and what is printed of it.
#![tactic(auto)]

pub mod answer;
