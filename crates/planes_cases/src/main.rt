// Reads inputs of the small programs, each behind a byte that says of which (0: frame files, 1: test frames) and a two-byte length of its own, and prints what
// that program prints for each. tools/planes_cases.py makes them, and from another implementation what is to be printed.
#![tactic(auto)]

ghost use Rattle.std.specs.Prelude.{◌≤◌};

use frame_file::answer;
use input::read_full;
use std::io;
use test_bytes::answer as test_answer;

// The small programs.
#[derive(Clone, Copy)]
enum Program {
    FrameFile,
    TestFrame,
}

// By the byte that stands in the input.
impl From<u8> for Program {
    fn from(byte: u8) -> Self {
        match byte {
            0 => Program::FrameFile,
            _ => Program::TestFrame,
        }
    }
}

impl Program {
    fn answer(self, bytes: &[u8], out: &mut [u8]) -> usize
        ensures { result ≤ 105 }
    {
        match self {
            Program::FrameFile => answer::answer(bytes, out),
            Program::TestFrame => test_answer::answer(bytes, out),
        }
    }
}

fn print_answer(rt: &impl Print, program: Program, bytes: &[u8]) -> io::Result<()> {
    let mut out = [0u8; 105];
    let size = program.answer(bytes, &mut out);
    rt.write_all(&out[..size])
}

fn print_answers(rt: &impl Print, bytes: &[u8]) -> io::Result<()> {
    let mut rest = bytes;
    while let [program, high, low, behind @ ..] = rest {
        let size = usize::from(u16::from_be_bytes([*high, *low]));
        if behind.len() < size {
            return Ok(());
        }
        print_answer(rt, Program::from(*program), &behind[..size])?;
        rest = &behind[size..];
    }
    Ok(())
}

fn main(rt: HostRuntime) -> io::Result<()> {
    let mut bytes = [0u8; 65536];
    let n = read_full(&mut rt.reader(), &mut bytes)?;
    print_answers(&rt, &bytes[..n])
}
