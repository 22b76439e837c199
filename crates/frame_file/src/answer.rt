ghost use Rattle.std.specs.Prelude.{◌≡◌, false, List, ℕ, ◌*◌, ◌≤◌, length, take};
ghost use Rattle.std.proofs.Common.{le_trans, lit≤};
ghost use Rattle.plane_text.specs.Written.{Answered};
ghost use Rattle.frame_file.specs.FrameFile.{frame_of, malformed, output};
ghost use Rattle.frame_file.specs.LongFile.{long_line};

use crate::file::{is_malformed, read_readings};
use bayer::frame::Frame;
use bayer::refusal::Refusal;
use frame_bytes::frame_at;
use frame_text::program::Program;
use frame_text::{program, text_of_frame};
use plane_text::text::Text;

// The bytes of a file that the program reads: in a buffer of 8202 a file that is a byte too long would not show.
pub const ROOM: usize = 8203;

// For a file that is not malformed.
#[tactic(auto, using(crate::proofs::FileLaws::frame_sized))]
fn frame_answer(bytes: &[u8], frame: Frame) -> Text
    requires well_formed { malformed bytes.now ≡ false }
    requires described { frame ≡ frame_of bytes.now }
    ensures { result ≡ output bytes.now }
{
    let size = frame.width * frame.height;
    // Fixed memory: nothing is on the heap.
    let mut mosaic = [0u16; 4096];
    let readings = &mut mosaic[..size];
    read_readings(bytes, readings);
    text_of_frame(frame, readings)
}

// The program that reads a frame file.
#[derive(Clone, Copy)]
pub struct FrameFile;

impl Program<ROOM> for FrameFile {
    ghost output = { output };

    // ROOM is 8203 or more.
    ghost long_refused = { λ input long. long_line input (le_trans (lit≤ tt) long) };

    fn text(bytes: &[u8]) -> Text {
        if is_malformed(bytes) {
            return Text::refusal(Refusal::MalformedFile.number());
        }
        frame_answer(bytes, frame_at(bytes, 5))
    }
}

// Puts what the program prints for these bytes at the start of `out`, and answers how many bytes that is; 105 are always enough. A shorter `out` is left
// alone, and the answer is 0.
// README offers it: neither its parameters nor its clause, `Answered`, may change.
pub fn answer(bytes: &[u8], out: &mut [u8]) -> usize
    ensures { Answered (output bytes.now) out.old out.new result }
{
    program::answer::<FrameFile, ROOM>(bytes, out)
}

// The same for a file of which n bytes were read into a buffer: as many as the buffer holds, or all of the file.
pub fn answer_read(bytes: [u8; ROOM], n: usize, out: &mut [u8]) -> usize
    ensures by_index { (file : List ℕ) → take n bytes ≡ take (length bytes) file → Answered (output file) out.old out.new result }
    ensures upper_bound { result ≤ 105 }
{
    program::answer_read::<FrameFile, ROOM>(bytes, n, out)
}
