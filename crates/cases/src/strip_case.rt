// Strip calls, as C calls them: the arguments by their places in include/rokzimp.h.
use crate::frame::{Frame, Rows};
use crate::numbers::Numbers;
use crate::planes::{Lengths, MOST_PIECE, MOST_PLANE, Planes, Room, lent};
use crate::recipe::Recipe;
use capi::previews::{
    rokzimp_preview, rokzimp_preview_check, rokzimp_preview_smoothed,
    rokzimp_preview_smoothed_check,
};
use capi::strips::{
    rokzimp_strip, rokzimp_strip_check, rokzimp_strip_smoothed, rokzimp_strip_smoothed_check,
};
use std::io;

#[derive(Clone, Copy)]
enum Entry {
    FullSize,
    Preview,
}

impl From<usize> for Entry {
    fn from(entry: usize) -> Self {
        match entry {
            1 => Entry::Preview,
            _ => Entry::FullSize,
        }
    }
}

// The numbers of a strip call. A smoothing above 255 is none that is named.
#[derive(Drop)]
pub struct StripCase {
    pub frame: Frame,
    entry: Entry,
    smoothing: Option<u8>,
    pub rows: Rows,
    pub piece: usize,
    pub planes: Lengths,
    pub recipe: Recipe,
}

impl StripCase {
    pub fn read(numbers: &mut Numbers) -> Self {
        let frame = Frame::read(numbers);
        let entry = Entry::from(numbers.size());
        let smoothing = u8::try_from(numbers.size()).ok();
        let _method = numbers.size();
        StripCase {
            frame,
            entry,
            smoothing,
            rows: Rows::read(numbers),
            piece: numbers.size(),
            planes: Lengths::read(numbers),
            recipe: Recipe::read(numbers),
        }
    }

    // The call of these rows.
    pub fn call(&self, rows: Rows, piece: &[u16], planes: &mut Planes) -> u32 {
        let Frame {
            width,
            height,
            layout,
        } = self.frame;
        let Rows { first, count } = rows;
        let red = &mut *planes.red;
        let green = &mut *planes.green;
        let blue = &mut *planes.blue;
        match (self.entry, self.smoothing) {
            (Entry::FullSize, None) => {
                rokzimp_strip(width, height, layout, first, count, piece, red, green, blue)
            }
            (Entry::FullSize, Some(smoothing)) => rokzimp_strip_smoothed(
                width, height, layout, smoothing, first, count, piece, red, green, blue,
            ),
            (Entry::Preview, None) => {
                rokzimp_preview(width, height, layout, first, count, piece, red, green, blue)
            }
            (Entry::Preview, Some(smoothing)) => rokzimp_preview_smoothed(
                width, height, layout, smoothing, first, count, piece, red, green, blue,
            ),
        }
    }

    // The number that its check gives.
    fn check(&self, piece: &[u16], planes: &Planes) -> u32 {
        let Frame {
            width,
            height,
            layout,
        } = self.frame;
        let Rows { first, count } = self.rows;
        let red = planes.red.len();
        let green = planes.green.len();
        let blue = planes.blue.len();
        match (self.entry, self.smoothing) {
            (Entry::FullSize, None) => {
                rokzimp_strip_check(width, height, layout, first, count, piece, red, green, blue)
            }
            (Entry::FullSize, Some(smoothing)) => rokzimp_strip_smoothed_check(
                width, height, layout, smoothing, first, count, piece, red, green, blue,
            ),
            (Entry::Preview, None) => {
                rokzimp_preview_check(width, height, layout, first, count, piece, red, green, blue)
            }
            (Entry::Preview, Some(smoothing)) => rokzimp_preview_smoothed_check(
                width, height, layout, smoothing, first, count, piece, red, green, blue,
            ),
        }
    }

    // The answer: the number of the call, that of its check, and the planes.
    pub fn run(&self, rt: &impl Print) -> io::Result<()> {
        let mut piece = [0u16; MOST_PIECE];
        let mut room = Room::<MOST_PLANE>::new();
        let piece = lent(&mut piece, self.piece);
        let mut planes = room.lent(self.planes);
        self.recipe.fill(piece, &mut planes);
        let checked = self.check(piece, &planes);
        let called = self.call(self.rows, piece, &mut planes);
        println!(rt; "{called} {checked} {planes}")
    }
}
