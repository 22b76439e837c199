// Green by fusion of four directions.
ghost use Rattle.std.specs.Prelude.{◌*◌, ◌≤◌, unsigned_abs};
ghost use Rattle.gbtf.specs.Machine.{Fitting};

use crate::numbers::Numbers;
use fusion::pixel::{fusion, green};
use gbtf::direction::Direction;
use gbtf::weights::{total, weights_of};
use std::io;

// A five-sum, which the case gives with 16380 totals added.
fn five_sum(total: u32, five: usize) -> i32
    requires { total ≤ 100 }
    ensures { unsigned_abs result ≤ 16380 * total }
{
    (five % (32760 * total as usize + 1)) as i32 - (16380 * total) as i32
}

fn direction(total: u32, sum: usize, five: usize) -> Direction
    requires { total ≤ 100 }
    ensures { Fitting total result }
{
    Direction {
        five: five_sum(total, five),
        sum: (sum % 884521) as u32,
    }
}

// One number of each direction, as the line has them.
#[derive(Clone, Copy)]
struct FourNumbers {
    east: usize,
    west: usize,
    north: usize,
    south: usize,
}

impl FourNumbers {
    fn read(numbers: &mut Numbers) -> Self {
        FourNumbers {
            east: numbers.size(),
            west: numbers.size(),
            north: numbers.size(),
            south: numbers.size(),
        }
    }
}

#[derive(Drop)]
pub struct FusionCase {
    smoothing: u8,
    reading: u16,
    sums: FourNumbers,
    five_sums: FourNumbers,
}

impl FusionCase {
    pub fn read(numbers: &mut Numbers) -> Self {
        FusionCase {
            smoothing: numbers.byte(),
            reading: (numbers.size() % 4096) as u16,
            sums: FourNumbers::read(numbers),
            five_sums: FourNumbers::read(numbers),
        }
    }

    pub fn run(&self, rt: &impl Print) -> io::Result<()> {
        let total = total(weights_of(self.smoothing));
        let east = direction(total, self.sums.east, self.five_sums.east);
        let west = direction(total, self.sums.west, self.five_sums.west);
        let north = direction(total, self.sums.north, self.five_sums.north);
        let south = direction(total, self.sums.south, self.five_sums.south);
        let green = green(self.reading, fusion(total, east, west, north, south));
        println!(rt; "{green}")
    }
}
