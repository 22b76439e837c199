// Every strip of a frame of at most 9 rows and columns, as C calls it.
ghost use Rattle.std.specs.Prelude.{◌≤◌};

use crate::frame::Rows;
use crate::planes::{Room, lent};
use crate::recipe::{low, times};
use crate::strip_case::StripCase;
use capi::pieces::{rokzimp_piece_rows, rokzimp_piece_start};
use std::io;

// In each plane room for the samples of the 45 strips that 9 rows have.
const ROOM: usize = 1485;

// The end of so many samples from `from` on, or of the room.
fn end_of(from: usize, size: usize, room: usize) -> usize
    requires { from ≤ room }
    ensures from_on { from ≤ result }
    ensures within { result ≤ room }
{
    from + size.min(room - from)
}

// The strip of these rows, where the frame has them: it leaves its samples in the planes from `at` on. The answer is where they end.
fn strip(case: &StripCase, rows: Rows, at: usize, mosaic: &[u16], room: &mut Room<ROOM>) -> usize
    requires first_small { rows.first ≤ 8 }
    requires count_small { rows.count ≤ 9 }
    requires at_within { at ≤ ROOM }
    ensures { result ≤ ROOM }
{
    let width = low(case.frame.width);
    if case.frame.height < rows.first + rows.count {
        return at;
    }
    let start = times(low(rokzimp_piece_start(rows.first)), width).min(mosaic.len());
    let lent_rows = rokzimp_piece_rows(case.frame.height, rows.first, rows.count);
    let end = end_of(start, times(low(lent_rows), width), mosaic.len());
    let to = end_of(at, times(low(rows.count), width), ROOM);
    case.call(rows, &mosaic[start..end], &mut room.part(at, to));
    to
}

// All strips, by first row and then by count, one after the other in the planes. The answer is where the last one ends.
fn strips(case: &StripCase, mosaic: &[u16], room: &mut Room<ROOM>) -> usize
    ensures { result ≤ ROOM }
{
    let mut at = 0;
    for first in 0..9 {
        for count in 1..10 {
            at = strip(case, Rows { first, count }, at, mosaic, room);
        }
    }
    at
}

// The answer: the length of the planes, and the planes as the strips have left them.
pub fn run(rt: &impl Print, case: &StripCase) -> io::Result<()> {
    let mut mosaic = [0u16; 81];
    let mut room = Room::<ROOM>::new();
    let size = times(low(case.frame.width), low(case.frame.height));
    let mosaic = lent(&mut mosaic, size);
    case.recipe.fill(mosaic, &mut room.part(0, ROOM));
    let end = strips(case, mosaic, &mut room);
    let planes = room.part(0, end);
    println!(rt; "{end} {planes}")
}
