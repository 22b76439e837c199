ghost use Rattle.std.specs.Prelude.{◌≡◌, ◌≤◌, ◌<◌, length};
ghost use Rattle.half_rows.specs.HalfRow.{pixels};
ghost use Rattle.fill_rows.specs.HalfFill.{Differences};
ghost use Rattle.fill_rows.specs.HalfRoom.{HalfSizes};

use std::marker::Model;

// A row's readings and its greens. Its red or blue pixels are at the columns side, side + 2, ..
#[derive(Clone, Copy)]
pub struct Row<'a> {
    pub side: usize,
    pub readings: &'a [u16],
    pub greens: &'a [u16],
    pub ghost bit: { side < 2 },
    pub ghost wide: { 2 ≤ length readings.now },
    pub ghost long: { length greens.now ≡ length readings.now },
}

impl Row<'_> {
    // How many of its pixels are red or blue.
    pub(crate) fn pixels(&self) -> usize
        ensures { result ≡ pixels (length self.now.readings.now) self.now.side }
    {
        (self.readings.len() + 1 - self.side) / 2
    }
}

// The colour differences of a row so many columns wide, as `edged` lists them.
#[derive(Clone, Copy)]
pub struct Differences<'a> {
    pub width: usize,
    pub list: &'a [i32],
    pub ghost fit: { Differences width list.now },
}

// Room for the two half rows that a row of red or blue is put together from. In contracts it is their lengths; what they held before does not matter, and what they
// hold afterwards is not promised.
#[derive(Drop)]
pub struct HalfRows<'a> {
    pub first: &'a mut [u16],
    pub second: &'a mut [u16],
}

impl<'a> Model for HalfRows<'a> {
    ghost Value = { HalfSizes };

    ghost view = { λ r. record { first = length r.first.now; second = length r.second.now } };
}
