#![tactic(auto, using(bayer::proofs::RefusalLaws::number_positive, bayer::proofs::RefusalLaws::refused), unfolding(crate::specs::TestFrame::walk_number, crate::specs::TestFrame::row_number, bayer::specs::Refusal::first_of))]

ghost use Rattle.std.specs.Prelude.{◌≡◌, ◌*◌, ◌≤◌, length};
ghost use Rattle.lists.specs.Part.{row_of};
ghost use Rattle.bayer.specs.Refusal.{Delivers, answer_number};
ghost use Rattle.test_frames.specs.Generator.{readings_after};
ghost use Rattle.test_frames.specs.TestFrame.{test_frame, walk_number, row_number};

use crate::generator::{reading, step};
use crate::jump::jump;
use bayer::check::sizes_check;
use bayer::refusal::Refusal;

// The readings of the states after this one, as many as there is room for.
fn walk(state: u32, out: &mut [u16])
    ensures { out.new ≡ readings_after state (length out.old) }
{
    let mut state = state;
    for sample in out.iter_mut() {
        state = step(state);
        *sample = reading(state);
    }
}

// Whether a walk is refused that is lent a frame of this length.
fn walk_check(width: usize, height: usize, lent: usize) -> Result<(), Refusal>
    ensures { answer_number result ≡ walk_number width height lent }
{
    sizes_check(width, height)?;
    if lent != width * height {
        return Err(Refusal::WrongPlaneLength);
    }
    Ok(())
}

// Whether a call is refused that makes one row, and is lent one of this length.
fn row_check(width: usize, height: usize, row: usize, lent: usize) -> Result<(), Refusal>
    ensures { answer_number result ≡ row_number width height row lent }
{
    sizes_check(width, height)?;
    if height <= row {
        return Err(Refusal::RowsOutsideFrame);
    }
    if lent != width {
        return Err(Refusal::WrongPlaneLength);
    }
    Ok(())
}

// The plain walk: fills the lent frame with the readings of the seed's test frame. Or it is refused, and the frame is as it was.
pub fn test_frame(seed: u32, width: usize, height: usize, frame: &mut [u16]) -> Result<(), Refusal>
    ensures { Delivers (walk_number width height (length frame.old)) (test_frame seed width height) frame.old (answer_number result) frame.new }
{
    walk_check(width, height, frame.len())?;
    walk(seed, frame);
    Ok(())
}

// The same for one row of that frame, in a lent row: a jump leads to the state before its first reading, so that no other row is made.
pub fn test_row(
    seed: u32,
    width: usize,
    height: usize,
    row: usize,
    out: &mut [u16],
) -> Result<(), Refusal>
    ensures { Delivers (row_number width height row (length out.old)) (row_of width row (test_frame seed width height)) out.old (answer_number result) out.new }
{
    row_check(width, height, row, out.len())?;
    walk(jump(seed, (row * width) as u64), out);
    Ok(())
}
