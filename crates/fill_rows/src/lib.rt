// Red and blue a row at a time.
#![tactic(auto)]

pub mod edge;
pub mod half;
pub mod row;
pub mod rows;
