ghost use Rattle.std.specs.Prelude.{◌≡◌, ℕ, ◌<◌, ◌≤◌, length};
ghost use Rattle.bayer.specs.Planes.{three_planes};
ghost use Rattle.remosaic.specs.MosaicBack.{observed};
ghost use Rattle.remosaic.specs.Rows.{RowsLent, observed_in};

use crate::planes::{own_sample, partner_row};
use bayer::frame::Frame;
use bayer::parity::starts_green;

// The planes of rows a to a + n - 1 of a frame that is not refused.
#[derive(Clone, Copy)]
pub struct PlaneRows<'a> {
    pub frame: Frame,
    pub a: usize,
    pub n: usize,
    pub red: &'a [u16],
    pub green: &'a [u16],
    pub blue: &'a [u16],
    pub ghost lent: { RowsLent frame a n (three_planes red.now green.now blue.now) },
}

// One of these rows, in green and in the colour that shares it with green; odd is 1 where column 0 is green, else 0: a
// number, as `observed_in` counts columns by it.
#[derive(Clone, Copy)]
pub struct PlaneRow<'a> {
    pub green: &'a [u16],
    pub other: &'a [u16],
    pub odd: usize,
    pub ghost narrow: { length green.now ≤ 4096 },
    pub ghost as_long: { length other.now ≡ length green.now },
    pub ghost parity: { odd < 2 },
}

impl<'a> PlaneRows<'a> {
    // Row i. Inlined: in rows of 64 columns the call takes a tenth of the time.
    #[inline]
    pub fn row(&self, i: usize) -> PlaneRow<'a>
        requires { i < self.now.n }
        ensures width { length result.green.now ≡ self.now.frame.width }
        ensures samples { (j : ℕ) → j < self.now.frame.width → observed_in result.odd result.green.now result.other.now j ≡ observed self.now.frame self.now.a (three_planes self.now.red.now self.now.green.now self.now.blue.now) i j }
    {
        let at = i * self.frame.width;
        let end = at + self.frame.width;
        PlaneRow {
            green: &self.green[at..end],
            other: partner_row(self.frame, self.a, i, self.red, self.blue),
            odd: starts_green(self.frame.layout, self.a + i),
        }
    }
}

impl<'a> PlaneRow<'a> {
    // The observed sample of column j.
    pub fn sample(&self, j: usize) -> u16
        requires { j < length self.now.green.now }
        ensures { result ≡ observed_in self.now.odd self.now.green.now self.now.other.now j }
    {
        own_sample(self.odd, j, self.green[j], self.other[j])
    }
}
