ghost use Rattle.std.specs.Prelude.{◌≡◌};
ghost use Rattle.bayer.specs.Parity.{starts_green};

use crate::colour::{Colour, colour_at};

// 1 where column 0 of row v is green, else 0: a number, as columns are counted by it; it is offered.
pub fn starts_green(layout: u8, v: usize) -> usize
    ensures { result ≡ starts_green layout v }
{
    usize::from(colour_at(layout, v, 0) == Colour::Green)
}
