// What C links: each function of `capi`, under its name. A slice is a pointer and a count of samples. The C interface needs both crates: an export stands in a static
// library, which no other crate can use, and `cases` calls these functions as C does.
#![tactic(auto)]

pub mod mosaics;
#[cfg(test)]
mod order;
pub mod pieces;
pub mod previews;
pub mod strips;
pub mod test_readings;
pub mod views;
