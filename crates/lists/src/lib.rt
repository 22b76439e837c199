// Lists: given by a rule, their parts and rows, bounds on their entries.
#![tactic(auto)]

pub mod above;
