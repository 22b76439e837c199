#![tactic(auto, using(bayer::proofs::RefusalLaws::number_positive), unfolding(bayer::specs::Refusal::first_of, crate::specs::Strip::strip_number))]

ghost use Rattle.std.specs.Prelude.{◌≡◌, ◌++◌, ◌≤◌};
ghost use Rattle.bayer.specs.Condition.{FrameFits, range_cases};
ghost use Rattle.bayer.specs.Refusal.{answer_number, first_of};
ghost use Rattle.strip.specs.Strip.{asked, entry_cases, named_cases, length_cases, strip_number};

use crate::entry::Entry;
use bayer::check::{frame_check, planes_misfit, rows_outside};
use bayer::frame::Frame;
use bayer::piece::piece_rows;
use bayer::refusal::Refusal;
use lists::above::any_above;

// Refusal 11, of the preview: more columns or rows than the unit takes.
fn entry_check(entry: Entry, w: usize, n: usize) -> Result<(), Refusal>
    ensures { answer_number result ≡ first_of (entry_cases entry w n) }
{
    match entry {
        Entry::Preview if 1024 < w || 64 < n => Err(Refusal::OverPreviewSize),
        Entry::FullSize | Entry::Preview => Ok(()),
    }
}

// Refusals 1, 2, 10, 3 and 11: of what a call names.
fn named_check(entry: Entry, frame: Frame, a: usize, n: usize) -> Result<(), Refusal>
    ensures { answer_number result ≡ first_of (named_cases entry frame a n) }
{
    frame_check(frame)?;
    if 1 < frame.smoothing {
        return Err(Refusal::UnknownSmoothing);
    }
    if rows_outside(frame.height, a, n) {
        return Err(Refusal::RowsOutsideFrame);
    }
    entry_check(entry, frame.width, n)
}

// Refusals 4, 5 and 6: of what a call is lent. 6 comes last, as it reads the piece. C lends them one by one.
fn lent_check(
    frame: Frame,
    a: usize,
    n: usize,
    piece: &[u16],
    red: usize,
    green: usize,
    blue: usize,
) -> Result<(), Refusal>
    requires frame { FrameFits frame }
    requires rows { n ≤ frame.height }
    ensures { answer_number result ≡ first_of (length_cases frame a n piece.now red green blue ++ range_cases piece.now) }
{
    let w = frame.width;
    if piece.len() != piece_rows(frame.height, a, n) * w {
        return Err(Refusal::WrongPieceLength);
    }
    if planes_misfit(n * w, red, green, blue) {
        return Err(Refusal::WrongPlaneLength);
    }
    if any_above(4095, piece) {
        return Err(Refusal::ReadingOutOfRange);
    }
    Ok(())
}

// Whether a strip call by this entry is refused. Nothing is written. C lends its parameters one by one.
pub fn strip_check(
    entry: Entry,
    frame: Frame,
    a: usize,
    n: usize,
    piece: &[u16],
    red: usize,
    green: usize,
    blue: usize,
) -> Result<(), Refusal>
    ensures { answer_number result ≡ strip_number (asked entry frame a n piece.now) red green blue }
{
    named_check(entry, frame, a, n)?;
    lent_check(frame, a, n, piece, red, green, blue)
}
