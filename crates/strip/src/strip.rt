ghost use Rattle.bayer.specs.Refusal.{answer_number};
ghost use Rattle.bayer.specs.Planes.{three_planes};
ghost use Rattle.strip.specs.declared.entry.Entry.TheVariants.{FullSize};
ghost use Rattle.strip.specs.Strip.{asked, Promise};

use crate::check::strip_check;
use crate::entry::Entry;
use bayer::frame::Frame;
use bayer::refusal::Refusal;
use strip_rows::rooms::fill_wide;

// Fills rows a to a + n - 1 of the three planes, n * W samples each, from the piece of the mosaic that has these rows and seven more on each side, within
// the frame. A call that is refused leaves the planes as they were.
// C lends its parameters one by one. A call by the preview is these two lines again, with its entry and its room: one function for both would take the room as a closure.
pub fn strip(
    frame: Frame,
    a: usize,
    n: usize,
    piece: &[u16],
    red: &mut [u16],
    green: &mut [u16],
    blue: &mut [u16],
) -> Result<(), Refusal>
    ensures { Promise (asked FullSize frame a n piece.now)
        (three_planes red.old green.old blue.old) (answer_number result)
        (three_planes red.new green.new blue.new) }
{
    strip_check(
        Entry::FullSize,
        frame,
        a,
        n,
        piece,
        red.len(),
        green.len(),
        blue.len(),
    )?;
    fill_wide(frame, a, n, piece, red, green, blue);
    Ok(())
}
