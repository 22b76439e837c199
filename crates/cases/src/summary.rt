// What is printed of samples.
use crate::recipe::state_of;
use std::fmt;

// The checksum of some samples, each of which changes it.
pub fn checksum(samples: &[u16]) -> u32 {
    samples.iter().fold(0u32, |checksum, sample| {
        state_of(1664525 * u64::from(checksum) + u64::from(*sample) + 1)
    })
}

// Sums are counted modulo 2^60.
const MODULUS: u64 = 0x1000_0000_0000_0000;

// The sum of some samples, by that modulus.
fn sum(samples: &[u16]) -> u64 {
    let sum = samples
        .iter()
        .fold(0u64, |sum, sample| sum % MODULUS + u64::from(*sample));
    sum % MODULUS
}

// Of a plane: sum, checksum, first and last sample, or 0 0.
#[derive(Drop)]
pub struct Summary {
    sum: u64,
    checksum: u32,
    first: u16,
    last: u16,
}

impl Summary {
    pub fn of(samples: &[u16]) -> Self {
        Summary {
            sum: sum(samples),
            checksum: checksum(samples),
            first: samples.first().copied().unwrap_or(0),
            last: samples.last().copied().unwrap_or(0),
        }
    }
}

impl fmt::Display for Summary {
    fn fmt<W: fmt::Write>(&self, f: &mut fmt::Formatter<W>) -> fmt::Result {
        write!(
            f,
            "{} {} {} {}",
            self.sum, self.checksum, self.first, self.last
        )
    }
}
