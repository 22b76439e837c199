ghost use Rattle.std.specs.Prelude.{◌≡◌, ℕ, ◌+◌, ◌*◌, ◌≤◌, ◌<◌, min, length};
ghost use Rattle.lists.specs.Table.{joined};
ghost use Rattle.lists.specs.Bound.{AllAtMost};
ghost use Rattle.bayer.specs.Lent.{Lent};
ghost use Rattle.green_rule.specs.Greens.{green_row};

use crate::block::green_block;
use crate::room::Room;
use crate::rows::Block;
use bayer::lent::Piece;

// The rows of a block: more would make the buffers larger and save little.
pub fn block_size(n: usize) -> usize
    ensures { result ≡ min n 8 }
{
    n.min(8)
}

// Green of a block's rows, in as much of the room as they need.
fn green_block_in(block: &Block<'_>, room: &mut Room<'_>, out: &mut [u16])
    requires range { AllAtMost 4095 block.now.piece.readings.now }
    requires room_for_frame { block.now.piece.frame.width ≤ room.old.columns }
    requires out_len { length out.old ≡ block.now.rows * block.now.piece.frame.width }
    ensures value { out.new ≡ joined (λ i. green_row block.now.piece.frame block.now.piece.start block.now.piece.readings.now (block.now.first + i)) block.now.rows }
    ensures same_room { room.new ≡ room.old }
{
    let s = block.piece.frame.width + 14;
    let h = (block.piece.frame.width + 1) / 2;
    let m = block.rows * s;
    let xs = m + 12 * s;
    let ds = 2 * m + 10 * s;
    let gs = 2 * m + 6 * s - 4;
    let ts = (block.rows + 2) * h;
    green_block(
        block,
        &mut room.readings[0..xs],
        &mut room.differences[0..ds],
        &mut room.gradients[0..gs],
        &mut room.column_sums[0..ts],
        &mut room.row,
        out,
    );
}

// Green of rows a to a + n - 1, block after block.
pub fn green_rows(piece: &Piece<'_>, a: usize, n: usize, room: &mut Room<'_>, out: &mut [u16])
    requires by_index { (i : ℕ) → i < n → Lent piece.now.frame piece.now.start (length piece.now.readings.now) (a + i) }
    requires at_most { AllAtMost 4095 piece.now.readings.now }
    requires n_bound { (n ≤ 4096) × (a ≤ 4096) × (piece.now.frame.width ≤ 4096) }
    requires room_for_frame { piece.now.frame.width ≤ room.old.columns }
    requires out_len { length out.old ≡ n * piece.now.frame.width }
    ensures value { out.new ≡ joined (λ i. green_row piece.now.frame piece.now.start piece.now.readings.now (a + i)) n }
    ensures same_room { room.new ≡ room.old }
{
    let w = piece.frame.width;
    for k in 0..n.div_ceil(8) {
        let i = 8 * k;
        let b = block_size(n - i);
        let at = i * w;
        let end = at + b * w;
        let block = Block {
            piece: *piece,
            first: a + i,
            rows: b,
        };
        green_block_in(&block, room, &mut out[at..end]);
    }
}
