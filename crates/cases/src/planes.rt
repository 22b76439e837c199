// The three planes of a call.
ghost use Rattle.std.specs.Prelude.{◌≤◌};

use crate::numbers::Numbers;
use crate::summary::Summary;
use std::fmt;

// Planes that are lent together.
#[derive(Drop)]
pub struct Planes<'a> {
    pub red: &'a mut [u16],
    pub green: &'a mut [u16],
    pub blue: &'a mut [u16],
}

impl fmt::Display for Planes<'_> {
    fn fmt<W: fmt::Write>(&self, f: &mut fmt::Formatter<W>) -> fmt::Result {
        let red = Summary::of(self.red);
        let green = Summary::of(self.green);
        let blue = Summary::of(self.blue);
        write!(f, "{red} {green} {blue}")
    }
}

// How many samples of each plane a case lends.
#[derive(Clone, Copy)]
pub struct Lengths {
    pub red: usize,
    pub green: usize,
    pub blue: usize,
}

impl Lengths {
    pub fn read(numbers: &mut Numbers) -> Self {
        Lengths {
            red: numbers.size(),
            green: numbers.size(),
            blue: numbers.size(),
        }
    }
}

// The most that a case lends of the mosaic, 22 rows of 4096, and of a plane, 8 of these and 8 samples.
pub const MOST_PIECE: usize = 22 * 4096;

pub const MOST_PLANE: usize = 8 * 4096 + 8;

// So many samples of some room, or all of it.
pub fn lent(room: &mut [u16], length: usize) -> &mut [u16] {
    let end = length.min(room.len());
    &mut room[..end]
}

// Room for three planes of N samples.
#[derive(Drop)]
pub struct Room<const N: usize> {
    red: [u16; N],
    green: [u16; N],
    blue: [u16; N],
}

impl<const N: usize> Room<N> {
    pub fn new() -> Self {
        Room {
            red: [0; N],
            green: [0; N],
            blue: [0; N],
        }
    }

    // As much of each plane as is asked for.
    pub fn lent(&mut self, lengths: Lengths) -> Planes<'_> {
        Planes {
            red: lent(&mut self.red, lengths.red),
            green: lent(&mut self.green, lengths.green),
            blue: lent(&mut self.blue, lengths.blue),
        }
    }

    // The samples of each plane from one place to another.
    pub fn part(&mut self, from: usize, to: usize) -> Planes<'_>
        requires ordered { from ≤ to }
        requires within { to ≤ N }
    {
        let red = &mut self.red[..];
        let green = &mut self.green[..];
        let blue = &mut self.blue[..];
        Planes {
            red: &mut red[from..to],
            green: &mut green[from..to],
            blue: &mut blue[from..to],
        }
    }
}
