// Green of a block of b rows, from b + 4 half rows of the even columns and as many of the odd ones.
ghost use Rattle.std.specs.Prelude.{◌≡◌, ℕ, ◌+◌, ◌*◌, ◌≤◌, ◌<◌, pos, length};
ghost use Rattle.lists.specs.Table.{table, joined};
ghost use Rattle.lists.specs.Bound.{AllAtMost};
ghost use Rattle.bayer.specs.Lent.{Lent};
ghost use Rattle.bayer.specs.Mosaic.{continued};
ghost use Rattle.half_rows.specs.HalfRow.{places};
ghost use Rattle.blend.specs.BlendAt.{blend_at};
ghost use Rattle.blend_rows.specs.BlendIn.{block_row};
ghost use Rattle.blend_rows.specs.Workspace.{RoomFor, SameSizes};

use crate::fetch::fetch_halves;
use crate::row::blend_row_from;
use crate::workspace::Workspace;
use bayer::lent::Piece;
use bayer::parity::starts_green;

// The rows' greens. The red and blue pixels of the first row stand at the columns odd, odd + 2, ..
// Seven parameters: a struct of the half rows and their numbers would be made for one call alone: no plainer.
fn blend_rows(
    e: &[u16],
    o: &[u16],
    w: usize,
    b: usize,
    odd: usize,
    room: &mut Workspace,
    out: &mut [u16],
)
    requires sizes { (odd < 2) × (0 < w) × (w ≤ 4096) × (b ≤ 8) }
    requires readings { (AllAtMost 4095 e.now) × (AllAtMost 4095 o.now) }
    requires lengths { (length e.now ≡ (b + 4) * places w) × (length o.now ≡ (b + 4) * places w) × (length out.old ≡ b * w) }
    requires room { RoomFor w room.old }
    ensures value { out.new ≡ joined (block_row w odd e.now o.now) b }
    ensures room_kept { SameSizes room.old room.new }
{
    let h = (w + 1) / 2 + 2;
    for i in 0..b {
        let side = (odd + i) % 2;
        let at = i * w;
        let end = at + w;
        let from = i * h;
        let to = from + 5 * h;
        blend_row_from(&e[from..to], &o[from..to], h, side, room, &mut out[at..end]);
    }
}

// Green of rows v to v + b - 1. e and o are room for the half rows, room for the rest;
// what they held before does not matter, and what they hold afterwards is not promised.
// Seven parameters: a struct of the two rooms for half rows would be made for one call alone: no plainer.
pub fn blend_block(
    piece: &Piece<'_>,
    v: usize,
    b: usize,
    e: &mut [u16],
    o: &mut [u16],
    room: &mut Workspace,
    out: &mut [u16],
)
    requires lent { (i : ℕ) → i < b → Lent piece.now.frame piece.now.start (length piece.now.readings.now) (v + i) }
    requires rows { (0 < b) × (b ≤ 8) }
    requires readings { AllAtMost 4095 piece.now.readings.now }
    requires half_rows { (12 * places piece.now.frame.width ≤ length e.old) × (12 * places piece.now.frame.width ≤ length o.old) }
    requires room { RoomFor piece.now.frame.width room.old }
    requires out { length out.old ≡ b * piece.now.frame.width }
    ensures value { out.new ≡ joined (λ i. table (λ j. blend_at (continued piece.now.frame piece.now.start piece.now.readings.now) (pos (v + i)) (pos j)) piece.now.frame.width) b }
    ensures room_kept { SameSizes room.old room.new }
{
    let w = piece.frame.width;
    let size = (b + 4) * ((w + 1) / 2 + 2);
    let odd = starts_green(piece.frame.layout, v);
    fetch_halves(piece, v, b, &mut e[0..size], &mut o[0..size]);
    blend_rows(&e[0..size], &o[0..size], w, b, odd, room, out);
}
