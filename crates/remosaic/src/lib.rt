// The mosaic back from the three planes of a strip, or of a whole frame.
#![tactic(auto)]

pub mod back;
pub mod check;
pub mod planes;
pub mod rows;
