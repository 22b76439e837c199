// The planes filled in local arrays: what a call of each entry takes of the stack. To clear arrays for 4096 columns would take longer than to fill a low strip of a narrow frame,
// so there are three sizes.
ghost use Rattle.std.specs.Prelude.{◌≤◌, length};
ghost use Rattle.bayer.specs.Piece.{piece_start};
ghost use Rattle.strip_rows.specs.Arrays.{Arrays};
ghost use Rattle.strip_rows.specs.StripRows.{Readable, Sized, Filled};

use crate::colours::{ColourRoom, Strip, colour_planes};
use crate::greens::greens;
use bayer::frame::Frame;
use bayer::lent::Piece;
use bayer::piece::piece_start;
use fill_rows::row::HalfRows;
use green_blocks::room::Room;
use green_row::room::RowRoom;

// Rows a to a + n - 1 of the three planes, from a strip's piece, in arrays for frames of up to COLUMNS columns. Colours are filled in where the five-sums and the half
// rows of green were.
// Seven parameters, as C lends them to each entry, and with them `Readable` and `Sized` in the three contracts. Fixed memory: nothing is on the heap.
fn fill_sized<
    const COLUMNS: usize,
    const READINGS: usize,
    const DIFFERENCES: usize,
    const GRADIENTS: usize,
    const COLUMN_SUMS: usize,
    const SUMS: usize,
    const FIVES: usize,
    const HALF: usize,
>(
    frame: Frame,
    a: usize,
    n: usize,
    readings: &[u16],
    red: &mut [u16],
    green: &mut [u16],
    blue: &mut [u16],
)
    requires readable { Readable frame (piece_start a) readings.now a n }
    requires sized { Sized frame n (length red.old) (length green.old) (length blue.old) }
    requires arrays { Arrays COLUMNS READINGS DIFFERENCES GRADIENTS COLUMN_SUMS SUMS FIVES HALF }
    requires width_bound { frame.width ≤ COLUMNS }
    ensures { Filled frame a n readings.now red.new green.new blue.new }
{
    let mut block_readings = [0u16; READINGS];
    let mut differences = [0i16; DIFFERENCES];
    let mut gradients = [0u16; GRADIENTS];
    let mut column_sums = [0u32; COLUMN_SUMS];
    let mut sums = [0u32; SUMS];
    let mut fives = [0i32; FIVES];
    let mut added = [0i32; HALF];
    let mut half = [0u16; HALF];
    let mut other_half = [0u16; HALF];
    let mut above = [0u16; COLUMNS];
    let mut below = [0u16; COLUMNS];
    let w = frame.width;
    let start = piece_start(a);
    let piece = Piece {
        frame,
        start,
        readings,
    };
    // A part is lent of a slice: of an array whose length is a parameter the check lends the whole alone.
    let above = &mut above[..];
    let below = &mut below[..];
    let above = &mut above[0..w];
    let below = &mut below[0..w];
    let row = RowRoom {
        columns: COLUMNS,
        sums: &mut sums,
        fives: &mut fives,
        added: &mut added,
        half: &mut half,
        other_half: &mut other_half,
    };
    let mut room = Room {
        columns: COLUMNS,
        readings: &mut block_readings,
        differences: &mut differences,
        gradients: &mut gradients,
        column_sums: &mut column_sums,
        row,
    };
    greens(&piece, a, n, &mut room, green, above, below);
    let strip = Strip {
        piece,
        first: a,
        rows: n,
        green,
        above,
        below,
    };
    let halves = HalfRows {
        first: &mut half,
        second: &mut other_half,
    };
    let mut colours = ColourRoom {
        differences: &mut fives,
        halves,
    };
    colour_planes(&strip, &mut colours, red, blue);
}

// In the least room for the frame's width, which the preview takes.
// Seven parameters, and `Readable` and `Sized` of them: the entries' own, as C lends them.
pub fn fill_narrow(
    frame: Frame,
    a: usize,
    n: usize,
    piece: &[u16],
    red: &mut [u16],
    green: &mut [u16],
    blue: &mut [u16],
)
    requires readable { (Readable frame (piece_start a) piece.now a n) × (Sized frame n (length red.old) (length green.old) (length blue.old)) }
    requires width_bound { frame.width ≤ 1024 }
    ensures { Filled frame a n piece.now red.new green.new blue.new }
{
    if frame.width <= 128 {
        fill_sized::<128, 2840, 3692, 3124, 640, 65, 660, 64>(frame, a, n, piece, red, green, blue);
        return;
    }
    fill_sized::<1024, 20760, 26988, 22836, 5120, 513, 5140, 512>(
        frame, a, n, piece, red, green, blue,
    );
}

// In the least room for any width.
// Seven parameters, and `Readable` and `Sized` of them: the entries' own, as C lends them.
pub fn fill_wide(
    frame: Frame,
    a: usize,
    n: usize,
    piece: &[u16],
    red: &mut [u16],
    green: &mut [u16],
    blue: &mut [u16],
)
    requires { (Readable frame (piece_start a) piece.now a n) × (Sized frame n (length red.old) (length green.old) (length blue.old)) }
    ensures { Filled frame a n piece.now red.new green.new blue.new }
{
    if frame.width <= 1024 {
        fill_narrow(frame, a, n, piece, red, green, blue);
        return;
    }
    fill_sized::<4096, 82200, 106860, 90420, 20480, 2049, 20500, 2048>(
        frame, a, n, piece, red, green, blue,
    );
}
