ghost use Rattle.std.specs.Prelude.{◌≡◌};
ghost use Rattle.bayer.specs.Piece.{piece_start, piece_rows};

// The first row of the piece that a strip from row a is lent.
#[unsafe(no_mangle)]
pub extern "C" fn rokzimp_piece_start(a: usize) -> usize
    ensures { result ≡ piece_start a }
{
    capi::pieces::rokzimp_piece_start(a)
}

// How many rows the piece has.
#[unsafe(no_mangle)]
pub extern "C" fn rokzimp_piece_rows(height: usize, a: usize, n: usize) -> usize
    ensures { result ≡ piece_rows height a n }
{
    capi::pieces::rokzimp_piece_rows(height, a, n)
}
