#![tactic(auto, using(crate::proofs::RefusalLaws::number_positive), unfolding(crate::specs::Refusal::first_of))]

ghost use Rattle.std.specs.Prelude.{◌≡◌, ◌++◌};
ghost use Rattle.bayer.specs.Condition.{outside_sizes, size_cases, frame_cases, rows_outside, rows_cases, planes_misfit};
ghost use Rattle.bayer.specs.Refusal.{answer_number, first_of};

use crate::frame::Frame;
use crate::refusal::Refusal;

// Whether a width or a height is outside 2 to 4096.
pub fn outside_sizes(n: usize) -> bool
    ensures { result ≡ outside_sizes n }
{
    n < 2 || 4096 < n
}

// Refusal 1, of a width and a height.
pub fn sizes_check(width: usize, height: usize) -> Result<(), Refusal>
    ensures { answer_number result ≡ first_of (size_cases width height) }
{
    if outside_sizes(width) || outside_sizes(height) {
        return Err(Refusal::SizeOutOfRange);
    }
    Ok(())
}

// Refusals 1 and 2, of a frame description.
pub fn frame_check(frame: Frame) -> Result<(), Refusal>
    ensures { answer_number result ≡ first_of (frame_cases frame) }
{
    sizes_check(frame.width, frame.height)?;
    if 3 < frame.layout {
        return Err(Refusal::UnknownLayout);
    }
    Ok(())
}

// Refusal 3: whether there is no row, or n rows from row a on run past the frame. The sum of a and n could wrap; the difference does not.
pub fn rows_outside(h: usize, a: usize, n: usize) -> bool
    ensures { result ≡ rows_outside h a n }
{
    n == 0 || h < n || h - n < a
}

// Refusals 1, 2 and 3, of n rows from row a on of a frame.
pub fn rows_check(frame: Frame, a: usize, n: usize) -> Result<(), Refusal>
    ensures { answer_number result ≡ first_of (frame_cases frame ++ rows_cases frame a n) }
{
    frame_check(frame)?;
    if rows_outside(frame.height, a, n) {
        return Err(Refusal::RowsOutsideFrame);
    }
    Ok(())
}

// Refusal 5 of three planes: whether one of them is not so long.
pub fn planes_misfit(size: usize, red: usize, green: usize, blue: usize) -> bool
    ensures { result ≡ planes_misfit size red green blue }
{
    red != size || green != size || blue != size
}
