ghost use Rattle.std.specs.Prelude.{◌≡◌, ◌+◌, ◌-◌, ◌*◌, ◌≤◌, length};
ghost use Rattle.lists.specs.Part.{row_of};

use crate::frame::Frame;

// What is lent of a frame's mosaic: readings of whole rows, from row `start` on.
#[derive(Clone, Copy)]
pub struct Piece<'a> {
    pub frame: Frame,
    pub start: usize,
    pub readings: &'a [u16],
}

impl<'a> Piece<'a> {
    // Row i of the frame.
    pub fn row(&self, i: usize) -> &'a [u16]
        requires from { self.now.start ≤ i }
        requires to { (i - self.now.start + 1) * self.now.frame.width ≤ length self.now.readings.now }
        ensures { result.now ≡ row_of self.now.frame.width (i - self.now.start) self.now.readings.now }
    {
        let width = self.frame.width;
        let at = (i - self.start) * width;
        let end = at + width;
        &self.readings[at..end]
    }
}
