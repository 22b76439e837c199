ghost use Rattle.std.specs.Prelude.{◌≡◌, ◌≤◌, List, ℕ, length, take, IfOk, IfErr};
ghost use Rattle.std.proofs.Common.{le_trans, lit≤};
ghost use Rattle.bayer.specs.Refusal.{answer_number, first_of, number};
ghost use Rattle.plane_text.specs.Text.{refusal_line};
ghost use Rattle.plane_text.specs.Written.{Answered};
ghost use Rattle.frame_text.specs.FrameText.{frame_text};
ghost use Rattle.test_frames.specs.TestFrame.{test_frame};
ghost use Rattle.test_bytes.specs.TestBytes.{named_cases, output};
ghost use Rattle.test_bytes.specs.LongInput.{long_line};

use bayer::check::frame_check;
use bayer::frame::Frame;
use bayer::refusal::Refusal;
use frame_bytes::{four_bytes, frame_at};
use frame_text::program::Program;
use frame_text::{program, text_of_frame};
use plane_text::text::Text;
use test_frames::frame::test_frame;

// The bytes of an input that the program reads: in a buffer of nine a tenth would not show.
pub const ROOM: usize = 10;

// Whether the frame that is named is refused: 1 and 2; then 8, if it has more than 4096 readings.
#[tactic(auto, using(bayer::proofs::RefusalLaws::number_positive), unfolding(bayer::specs::Refusal::first_of))]
fn named_check(frame: Frame) -> Result<(), Refusal>
    ensures { answer_number result ≡ first_of (named_cases frame) }
{
    frame_check(frame)?;
    if 4096 < frame.width * frame.height {
        return Err(Refusal::MalformedFile);
    }
    Ok(())
}

// For a frame whose smoothing is 0.
#[tactic(auto, using(crate::proofs::OutputLaws::refused_text))]
fn frame_answer(seed: u32, frame: Frame) -> Result<Text, Refusal>
    requires { frame.smoothing ≡ 0 }
    ensures accepted { IfOk result (λ text. text ≡ frame_text (first_of (named_cases frame)) frame (test_frame seed frame.width frame.height)) }
    ensures refused { IfErr result (λ refusal. refusal_line (number refusal) ≡ frame_text (first_of (named_cases frame)) frame (test_frame seed frame.width frame.height)) }
{
    named_check(frame)?;
    let size = frame.width * frame.height;
    // Fixed memory: nothing is on the heap.
    let mut mosaic = [0u16; 4096];
    let readings = &mut mosaic[..size];
    test_frame(seed, frame.width, frame.height, readings)?;
    Ok(text_of_frame(frame, readings))
}

// The program that reads nine bytes, which name a test frame.
#[derive(Clone, Copy)]
pub struct NamedFrame;

impl Program<ROOM> for NamedFrame {
    ghost output = { output };

    // ROOM is 10 or more.
    ghost long_refused = { λ input long. long_line input (le_trans (lit≤ tt) long) };

    fn text(bytes: &[u8]) -> Text {
        if bytes.len() != 9 {
            return Text::refusal(Refusal::MalformedFile.number());
        }
        match frame_answer(four_bytes(bytes, 0), frame_at(bytes, 4)) {
            Ok(text) => text,
            Err(refusal) => Text::refusal(refusal.number()),
        }
    }
}

// Puts what the program prints for these bytes at the start of `out`, and answers how many bytes that is; 105 are always enough. A shorter `out` is left
// alone, and the answer is 0.
// README offers it: neither its parameters nor its clause, `Answered`, may change.
pub fn answer(bytes: &[u8], out: &mut [u8]) -> usize
    ensures { Answered (output bytes.now) out.old out.new result }
{
    program::answer::<NamedFrame, ROOM>(bytes, out)
}

// The same for an input of which n bytes were read into a buffer: as many as the buffer holds, or all of it.
pub fn answer_read(bytes: [u8; ROOM], n: usize, out: &mut [u8]) -> usize
    ensures by_index { (input : List ℕ) → take n bytes ≡ take (length bytes) input → Answered (output input) out.old out.new result }
    ensures upper_bound { result ≤ 105 }
{
    program::answer_read::<NamedFrame, ROOM>(bytes, n, out)
}
