ghost use Rattle.bayer.specs.Refusal.{answer_number};
ghost use Rattle.bayer.specs.Planes.{three_planes};
ghost use Rattle.strip.specs.declared.entry.Entry.TheVariants.{Preview};
ghost use Rattle.strip.specs.Strip.{asked, Promise};

use crate::check::strip_check;
use crate::entry::Entry;
use bayer::frame::Frame;
use bayer::refusal::Refusal;
use strip_rows::rooms::fill_narrow;

// A strip of at most 64 rows, of a frame of at most 1024 columns, in about a quarter of the stack. Its samples are those of `strip`; more is refused.
// C lends its parameters one by one.
pub fn preview(
    frame: Frame,
    a: usize,
    n: usize,
    piece: &[u16],
    red: &mut [u16],
    green: &mut [u16],
    blue: &mut [u16],
) -> Result<(), Refusal>
    ensures { Promise (asked Preview frame a n piece.now)
        (three_planes red.old green.old blue.old) (answer_number result)
        (three_planes red.new green.new blue.new) }
{
    strip_check(
        Entry::Preview,
        frame,
        a,
        n,
        piece,
        red.len(),
        green.len(),
        blue.len(),
    )?;
    fill_narrow(frame, a, n, piece, red, green, blue);
    Ok(())
}
