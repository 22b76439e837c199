ghost use Rattle.std.specs.Prelude.{◌≡◌, ◌≤◌, List, ℕ, length, take};
ghost use Rattle.plane_text.specs.Text.{refusal_line};
ghost use Rattle.plane_text.specs.Written.{Answered};

use frame_bytes::first_bytes;
use plane_text::text::Text;

// A program that reads bytes and prints lines. It refuses every input of ROOM bytes or more in the same way, so that a buffer of ROOM bytes shows enough of any.
pub trait Program<const ROOM: usize> {
    ghost output: { List ℕ → List ℕ };

    // What the program prints of these bytes.
    fn text(bytes: &[u8]) -> Text
        ensures { result ≡ output bytes.now };

    ghost long_refused: { (input : List ℕ) → ROOM ≤ length input → output input ≡ refusal_line 8 };
}

// Puts what the program prints for these bytes at the start of `out`, and answers how many bytes that is; 105 are always enough. A shorter `out` is left
// alone, and the answer is 0.
// What README offers of each program is answered by it, so that its clause, `Answered`, is theirs, which may not change.
pub fn answer<P: Program<ROOM>, const ROOM: usize>(bytes: &[u8], out: &mut [u8]) -> usize
    ensures { Answered (P.output bytes.now) out.old out.new result }
{
    if out.len() < 105 {
        return 0;
    }
    P::text(bytes).put(out)
}

// The same for an input of which n bytes were read into a buffer: as many as the buffer holds, or all of it.
pub fn answer_read<P: Program<ROOM>, const ROOM: usize>(
    bytes: [u8; ROOM],
    n: usize,
    out: &mut [u8],
) -> usize
    ensures by_index { (input : List ℕ) → take n bytes.entry ≡ take (length bytes.entry) input → Answered (P.output input) out.old out.new result }
    ensures upper_bound { result ≤ 105 }
{
    answer::<P, ROOM>(first_bytes(&bytes, n), out)
}
