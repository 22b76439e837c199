ghost use Rattle.std.specs.Prelude.{◌≡◌};
ghost use Rattle.bayer.specs.Piece.{piece_start, piece_rows};

use bayer::piece::{piece_rows, piece_start};

// The first row of the piece that a strip from row a is lent.
pub fn rokzimp_piece_start(a: usize) -> usize
    ensures { result ≡ piece_start a }
{
    piece_start(a)
}

// How many rows the piece has.
pub fn rokzimp_piece_rows(height: usize, a: usize, n: usize) -> usize
    ensures { result ≡ piece_rows height a n }
{
    piece_rows(height, a, n)
}
