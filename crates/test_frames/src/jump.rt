ghost use Rattle.std.specs.Prelude.{◌≡◌};
ghost use Rattle.test_frames.specs.Generator.{state_after};
ghost use Rattle.test_frames.specs.Jump.{odd_move, jumped};

use crate::generator::{INCREMENT, MULTIPLIER, affine};

// x, moved on by a x + c where r is odd.
fn odd_move(r: u64, a: u32, c: u32, x: u32) -> u32
    ensures { result ≡ odd_move r a c x }
{
    if r % 2 == 1 { affine(a, c, x) } else { x }
}

// The state after r steps. Each turn halves what is left of r, and doubles the steps that a x + c makes: 64 turns at most.
// A `for` over 64 bits would need r's next bit of a position, and would go on where no step is left.
pub fn jump(state: u32, r: u64) -> u32
    ensures { (result ≡ state_after state r) × (result ≡ jumped state r) }
{
    let mut x = state;
    let mut a = MULTIPLIER;
    let mut c = INCREMENT;
    let mut left = r;
    while left != 0 {
        x = odd_move(left, a, c, x);
        c = affine(a, c, c);
        a = affine(a, 0, a);
        left /= 2;
    }
    x
}
