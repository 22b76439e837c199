ghost use Rattle.std.specs.Prelude.{◌≡◌, ◌≤◌, ◌<◌, ◌^◌, IfOk, List, ℕ, length, take};

use frame_text::program::{Program, answer_read};
use input::read_full;
use std::io;

// The first `read` of the bytes are what was read of an input: as many as there is room for, or all of it. The first `size` bytes of the text answer it.
#[derive(Drop)]
pub struct Reply<const ROOM: usize> {
    pub bytes: [u8; ROOM],
    pub read: usize,
    pub text: [u8; 105],
    pub size: usize,
}

// Reads an input from standard input, and answers it as P does. An `Err` is of a read that failed.
pub fn read_and_answer<P: Program<ROOM>, const ROOM: usize>(
    rt: &impl Input,
) -> io::Result<Reply<ROOM>>
    requires { ROOM < 2 ^ 63 }
    ensures by_index { IfOk result (λ reply. (input : List ℕ) → take reply.read reply.bytes ≡ take (length reply.bytes) input → take reply.size reply.text ≡ P.output input) }
    ensures upper_bound { IfOk result (λ reply. reply.size ≤ 105) }
{
    let mut bytes = [0u8; ROOM];
    let read = read_full(&mut rt.reader(), &mut bytes)?;
    let mut text = [0u8; 105];
    let size = answer_read::<P, ROOM>(bytes, read, &mut text);
    Ok(Reply {
        bytes,
        read,
        text,
        size,
    })
}
