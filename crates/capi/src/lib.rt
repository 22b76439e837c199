// What C calls. A slice is a pointer and a count of samples. The C interface keeps its form: plain parameters and numbers, a function for each exported name, the strips and the
// previews by themselves.
#![tactic(auto)]

pub mod mosaics;
pub mod pieces;
pub mod previews;
pub mod strips;
pub mod test_readings;
pub mod views;
