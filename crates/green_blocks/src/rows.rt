ghost use Rattle.std.specs.Prelude.{ℕ, ◌+◌, ◌≤◌, ◌<◌, length};
ghost use Rattle.bayer.specs.Lent.{Lent};

use bayer::lent::Piece;

// Rows of a frame that are worked on at once, from row `first` on: so few that the buffers have room for them, and what is lent has all that their green is worked out
// from.
#[derive(Clone, Copy)]
pub struct Block<'a> {
    pub piece: Piece<'a>,
    pub first: usize,
    pub rows: usize,
    pub ghost some: { 0 < rows },
    pub ghost few: { rows ≤ 8 },
    pub ghost lent: { (i : ℕ) → i < rows → Lent piece.frame piece.start (length piece.readings.now) (first + i) },
}
