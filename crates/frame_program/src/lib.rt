// What the programs run: each reads, answers and prints.
#![tactic(auto)]

pub mod file;
pub mod program;
pub mod test;
