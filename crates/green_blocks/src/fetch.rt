ghost use Rattle.std.specs.Prelude.{◌≡◌, ◌+◌, ◌*◌, length};
ghost use Rattle.lists.specs.Table.{joined};
ghost use Rattle.green_row.specs.Extended.{extended_row};

use crate::rows::Block;
use bayer::mirror::mirror;
use green_row::extend::extend;

// The six rows above a block, its own and the six below it, of the continued mosaic, each s places wide, from column -7 on.
pub fn fetch(block: &Block<'_>, s: usize, x: &mut [u16])
    requires s_value { s ≡ block.now.piece.frame.width + 14 }
    requires x_len { length x.old ≡ block.now.rows * s + 12 * s }
    ensures { x.new ≡ joined (extended_row block.now.piece.frame block.now.piece.start block.now.piece.readings.now block.now.first s) (block.now.rows + 12) }
{
    let height = block.piece.frame.height;
    for r in 0..block.rows + 12 {
        let row = block.piece.row(mirror(height, block.first + r, 6));
        let at = r * s;
        let end = at + s;
        extend(row, &mut x[at..end]);
    }
}
