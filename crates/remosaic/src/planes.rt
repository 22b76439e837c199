ghost use Rattle.std.specs.Prelude.{◌≡◌, cond, ◌+◌, ◌*◌, ◌≤◌, ◌<◌, length};
ghost use Rattle.lists.specs.Part.{row_of};
ghost use Rattle.bayer.specs.Colour.{partner};
ghost use Rattle.bayer.specs.Condition.{FrameFits};
ghost use Rattle.bayer.specs.Parity.{is_odd};
ghost use Rattle.bayer.specs.Planes.{plane_of};

use bayer::colour::{Colour, partner};
use bayer::frame::Frame;

// Row i of a strip from row a on, in the plane of the colour that shares it with green.
#[tactic(auto, unfolding(lists::specs::Part::row_of))]
pub fn partner_row<'a>(
    frame: Frame,
    a: usize,
    i: usize,
    red: &'a [u16],
    blue: &'a [u16],
) -> &'a [u16]
    requires { (FrameFits frame) × (a + i < frame.height) × ((i + 1) * frame.width ≤ length red.now) × ((i + 1) * frame.width ≤ length blue.now) }
    ensures { result.now ≡ row_of frame.width i (plane_of (partner frame.layout (a + i)) red.now blue.now) }
{
    let plane = match partner(frame.layout, a + i) {
        Colour::Red | Colour::Green => red,
        Colour::Blue => blue,
    };
    let at = i * frame.width;
    let end = at + frame.width;
    &plane[at..end]
}

// The sample of column j of a row: green's where j + odd is odd, else the other colour's. Both are read before, so a loop over columns has no branch; and
// columns are counted in 16 bits, as the samples are: the compiler takes four times as many columns at a time as in 64 bits.
pub fn own_sample(odd: usize, j: usize, green: u16, other: u16) -> u16
    requires { (odd < 2) × (j < 4096) }
    ensures { result ≡ cond (is_odd (j + odd)) green other }
{
    if (j as u16 + odd as u16) % 2 == 1 {
        green
    } else {
        other
    }
}
