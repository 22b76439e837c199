// Green of many rows, block by block.
#![tactic(auto)]

pub mod block;
pub mod blocks;
pub mod fetch;
pub mod room;
pub mod rows;
