// Green by GBTF, the gradient based threshold free method: the numbers of one pixel.
#![tactic(auto)]

pub mod difference;
pub mod direction;
pub mod weights;
