ghost use Rattle.std.specs.Prelude.{◌≡◌, ℕ, Some, ◌+◌, ◌*◌, ◌≤◌, ◌<◌, length};
ghost use Rattle.lists.specs.Bound.{AllAtMost};
ghost use Rattle.bayer.specs.Lent.{Lent};
ghost use Rattle.green_rule.specs.Greens.{green_row};
ghost use Rattle.strip_rows.specs.StripRows.{Readable, GreensOf};

use bayer::lent::Piece;
use green_blocks::blocks::green_rows;
use green_blocks::room::Room;

// Green of a row, if there is one and the frame has it.
fn green_beside(piece: &Piece<'_>, row: Option<usize>, room: &mut Room<'_>, out: &mut [u16])
    requires by_index { (v : ℕ) → row ≡ Some v → v < piece.now.frame.height → Lent piece.now.frame piece.now.start (length piece.now.readings.now) v }
    requires at_most { AllAtMost 4095 piece.now.readings.now }
    requires room_for_frame { piece.now.frame.width ≤ room.old.columns }
    requires out_len { length out.old ≡ piece.now.frame.width }
    ensures value { (v : ℕ) → row ≡ Some v → v < piece.now.frame.height → out.new ≡ green_row piece.now.frame piece.now.start piece.now.readings.now v }
    ensures same_room { room.new ≡ room.old }
{
    if let Some(v) = row {
        if v < piece.frame.height {
            green_rows(piece, v, 1, room, out);
        }
    }
}

// The greens of rows a to a + n - 1, and of the rows above and below them that the frame has. At its edges the mirrored rows are among them already.
// Seven parameters: a struct of the three lent rows would be made for one call alone: no plainer.
pub fn greens(
    piece: &Piece<'_>,
    a: usize,
    n: usize,
    room: &mut Room<'_>,
    green: &mut [u16],
    above: &mut [u16],
    below: &mut [u16],
)
    requires readable { Readable piece.now.frame piece.now.start piece.now.readings.now a n }
    requires room_for_frame { piece.now.frame.width ≤ room.old.columns }
    requires green_len { length green.old ≡ n * piece.now.frame.width }
    requires above_len { length above.old ≡ piece.now.frame.width }
    requires below_len { length below.old ≡ piece.now.frame.width }
    ensures value { GreensOf piece.now.frame piece.now.start piece.now.readings.now a n green.new above.new below.new }
    ensures same_room { room.new ≡ room.old }
{
    green_rows(piece, a, n, room, green);
    green_beside(piece, a.checked_sub(1), room, above);
    green_beside(piece, Some(a + n), room, below);
}
