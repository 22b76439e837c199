ghost use Rattle.std.specs.Prelude.{◌≡◌, List, ℕ, length, take};
ghost use Rattle.frame_file.specs.FrameFile.{output};

use crate::program::read_and_answer;
use frame_file::answer::{FrameFile, ROOM};
use std::io;

// Prints the answer. The n bytes that were read stand in the contract only, which says to which file it is the answer.
fn print_answer(rt: &impl Print, bytes: &[u8], n: usize, answer: &[u8]) -> io::Result<()>
    requires { (file : List ℕ) → take n bytes.now ≡ take (length bytes.now) file → answer.now ≡ output file }
{
    rt.write_all(answer)
}

// Reads a frame file from standard input and prints the smallest, the largest and the sum of each plane, or the number of its refusal. An `Err` is of a read or a
// write that failed.
pub fn run(rt: &(impl Input + Print)) -> io::Result<()> {
    let reply = read_and_answer::<FrameFile, ROOM>(rt)?;
    print_answer(rt, &reply.bytes, reply.read, &reply.text[..reply.size])
}
