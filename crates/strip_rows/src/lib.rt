// The rows of red, green and blue that an accepted strip call delivers, from a piece of the mosaic.
#![tactic(auto)]

pub mod colours;
pub mod greens;
pub mod rooms;
