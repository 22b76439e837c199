ghost use Rattle.std.specs.Prelude.{◌≡◌, length};
ghost use Rattle.lists.specs.Part.{row_of};
ghost use Rattle.bayer.specs.Refusal.{Delivers};
ghost use Rattle.test_frames.specs.Generator.{state_after};
ghost use Rattle.test_frames.specs.Jump.{jumped};
ghost use Rattle.test_frames.specs.TestFrame.{test_frame, walk_number, row_number};

use bayer::refusal::answer_number;
use test_frames::frame::{test_frame, test_row};
use test_frames::jump::jump;

// The test frame of a seed.
pub fn rokzimp_test_frame(seed: u32, width: usize, height: usize, frame: &mut [u16]) -> u32
    ensures { Delivers (walk_number width height (length frame.old)) (test_frame seed width height) frame.old result frame.new }
{
    answer_number(test_frame(seed, width, height, frame))
}

// One row of it.
pub fn rokzimp_test_row(seed: u32, width: usize, height: usize, row: usize, out: &mut [u16]) -> u32
    ensures { Delivers (row_number width height row (length out.old)) (row_of width row (test_frame seed width height)) out.old result out.new }
{
    answer_number(test_row(seed, width, height, row, out))
}

// The state after so many steps.
pub fn rokzimp_jump(state: u32, steps: u64) -> u32
    ensures { (result ≡ state_after state steps) × (result ≡ jumped state steps) }
{
    jump(state, steps)
}
