// Red and blue, filled in from green.
#![tactic(auto)]

pub mod fill;
