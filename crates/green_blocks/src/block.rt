// Green of a block of b rows, from b + 12 rows of readings: what rows have in common is worked out once. In the buffers of readings, differences and gradients
// m = b * s places belong to its rows; what is around them is a few rows more on either side.
ghost use Rattle.std.specs.Prelude.{◌≡◌, ◌++◌, ℕ, ◌+◌, ◌*◌, ◌-◌, ◌/◌, ◌≤◌, ◌<◌, length};
ghost use Rattle.lists.specs.Table.{table, joined};
ghost use Rattle.lists.specs.Part.{part};
ghost use Rattle.lists.specs.Bound.{AllAtMost};
ghost use Rattle.green_rule.specs.Greens.{green_row};
ghost use Rattle.green_row.specs.AlongAxis.{difference_in, gradient_in, Apart};
ghost use Rattle.green_blocks.specs.Block.{AroundBlock, BlockLong, column_sums, fused_row_in};

use crate::fetch::fetch;
use crate::rows::Block;
use bayer::parity::starts_green;
use green_row::along::{differences, gradients};
use green_row::fuse::fuse_in;
use green_row::room::{Buffers, RowRoom};
use green_row::sums::sums;

// The differences along the b + 2 rows in the middle of the readings, and then along the columns of the b + 8 in the middle.
fn all_differences(x: &[u16], s: usize, m: usize, d: &mut [i16])
    requires { (2 ≤ s) × (s ≤ 4110) × (m ≤ 32880) × (length x.now ≡ m + 12 * s) × (length d.old ≡ m + 2 * s + (m + 8 * s)) × (AllAtMost 4095 x.now) }
    ensures { d.new ≡ table (difference_in 1 (part (5 * s - 2) (m + 2 * s + 4) x.now)) (m + 2 * s) ++ table (difference_in s x.now) (m + 8 * s) }
{
    let at = 5 * s - 2;
    let end = m + 7 * s + 2;
    let dh_len = m + 2 * s;
    differences(&x[at..end], 1, &mut d[0..dh_len]);
    differences(x, s, &mut d[dh_len..]);
}

// Their gradients: along the b + 2 rows, and along the columns of the b + 4 rows in the middle.
fn all_gradients(d: &[i16], s: usize, m: usize, g: &mut [u16])
    requires le_s { (2 ≤ s) × (s ≤ 4110) × (m ≤ 32880) × (length d.now ≡ m + 2 * s + (m + 8 * s)) × (length g.old ≡ m + 2 * s - 4 + (m + 4 * s)) }
    requires apart { (Apart 1 (part 0 (m + 2 * s) d.now)) × (Apart s (part (m + 2 * s) (m + 8 * s) d.now)) }
    ensures { g.new ≡ table (gradient_in 1 (part 0 (m + 2 * s) d.now)) (m + 2 * s - 4) ++ table (gradient_in s (part (m + 2 * s) (m + 8 * s) d.now)) (m + 4 * s) }
{
    let dh_len = m + 2 * s;
    let gh_len = dh_len - 4;
    gradients(&d[0..dh_len], 1, &mut g[0..gh_len]);
    gradients(&d[dh_len..], s, &mut g[gh_len..]);
}

// The direction sums along the column that the rows of the block read above and below their red and blue pixels: of b + 2 rows, from the one before the block on.
fn column_sums(gv: &[u16], w: usize, b: usize, s: usize, odd: usize, tv: &mut [u32])
    requires { (odd < 2) × (w + 14 ≤ s) × (s ≤ 4110) × (b ≤ 8) × (length gv.now ≡ b * s + 4 * s) × (length tv.old ≡ (b + 2) * ((w + 1) / 2)) }
    ensures { tv.new ≡ joined (column_sums w s odd gv.now) (b + 2) }
{
    let h = (w + 1) / 2;
    for i in 0..b + 2 {
        let at = i * h;
        let end = at + h;
        let first = i * s + 6 + (odd + i) % 2;
        sums(gv, s, first, &mut tv[at..end]);
    }
}

// What row i of a block is handed of the block's buffers, whose direction sums are in rows of h.
fn around_row<'a>(buffers: &Buffers<'a>, h: usize, i: usize) -> Buffers<'a>
    requires i_bound { i < 8 }
    requires stride_bound { (4 ≤ buffers.now.stride) × (buffers.now.stride ≤ 4110) × (h ≤ 4110) }
    requires dh_end { i * buffers.now.stride + 3 * buffers.now.stride ≤ length buffers.now.dh.now }
    requires dv_end { i * buffers.now.stride + 9 * buffers.now.stride ≤ length buffers.now.dv.now }
    requires gh_end { i * buffers.now.stride + (3 * buffers.now.stride - 4) ≤ length buffers.now.gh.now }
    requires tv_end { i * h + 3 * h ≤ length buffers.now.tv.now }
    ensures stride { result.stride ≡ buffers.now.stride }
    ensures dh { result.dh.now ≡ part (i * buffers.now.stride) (3 * buffers.now.stride) buffers.now.dh.now }
    ensures dv { result.dv.now ≡ part (i * buffers.now.stride) (9 * buffers.now.stride) buffers.now.dv.now }
    ensures gh { result.gh.now ≡ part (i * buffers.now.stride) (3 * buffers.now.stride - 4) buffers.now.gh.now }
    ensures tv { result.tv.now ≡ part (i * h) (3 * h) buffers.now.tv.now }
{
    let s = buffers.stride;
    let at = i * s;
    let dh_end = at + 3 * s;
    let dv_end = at + 9 * s;
    let gh_end = at + (3 * s - 4);
    let tv_at = i * h;
    let tv_end = tv_at + 3 * h;
    Buffers {
        stride: s,
        dh: &buffers.dh[at..dh_end],
        dv: &buffers.dv[at..dv_end],
        gh: &buffers.gh[at..gh_end],
        tv: &buffers.tv[tv_at..tv_end],
    }
}

// Green of a block's rows, from their buffers.
fn fuse_rows(block: &Block<'_>, buffers: &Buffers<'_>, room: &mut RowRoom<'_>, out: &mut [u16])
    requires range { AllAtMost 4095 block.now.piece.readings.now }
    requires around { AroundBlock block.now.piece.frame.width block.now.rows buffers.now.stride (length buffers.now.dh.now) (length buffers.now.dv.now) (length buffers.now.gh.now) (length buffers.now.tv.now) }
    requires room_for_frame { block.now.piece.frame.width ≤ room.old.columns }
    requires out_len { length out.old ≡ block.now.rows * block.now.piece.frame.width }
    ensures value { out.new ≡ joined (fused_row_in block.now.piece.frame block.now.piece.start block.now.piece.readings.now block.now.first buffers.now.dh.now buffers.now.dv.now buffers.now.gh.now buffers.now.tv.now) block.now.rows }
    ensures same_room { room.new ≡ room.old }
{
    let frame = block.piece.frame;
    let w = frame.width;
    let h = (w + 1) / 2;
    let odd = starts_green(frame.layout, block.first);
    for i in 0..block.rows {
        let side = (odd + i) % 2;
        let x = block.piece.row(block.first + i);
        let around = around_row(buffers, h, i);
        let at = i * w;
        let end = at + w;
        fuse_in(frame.smoothing, x, side, &around, room, &mut out[at..end]);
    }
}

// Green of a block's rows. x, d, g and tv are room for their readings, differences, gradients and direction sums along the columns.
// Seven parameters, apart from `green_block_in`, which cuts them from its room: two parts of one lent struct go into one call only as slices.
pub fn green_block(
    block: &Block<'_>,
    x: &mut [u16],
    d: &mut [i16],
    g: &mut [u16],
    tv: &mut [u32],
    room: &mut RowRoom<'_>,
    out: &mut [u16],
)
    requires range { AllAtMost 4095 block.now.piece.readings.now }
    requires long { BlockLong block.now.piece.frame.width block.now.rows (length x.old) (length d.old) (length g.old) (length tv.old) }
    requires room_for_frame { block.now.piece.frame.width ≤ room.old.columns }
    requires out_len { length out.old ≡ block.now.rows * block.now.piece.frame.width }
    ensures value { out.new ≡ joined (λ i. green_row block.now.piece.frame block.now.piece.start block.now.piece.readings.now (block.now.first + i)) block.now.rows }
    ensures same_room { room.new ≡ room.old }
{
    let w = block.piece.frame.width;
    let b = block.rows;
    let s = w + 14;
    let m = b * s;
    let dh_len = m + 2 * s;
    let gh_len = dh_len - 4;
    let odd = starts_green(block.piece.frame.layout, block.first);
    fetch(block, s, x);
    all_differences(x, s, m, d);
    all_gradients(d, s, m, g);
    column_sums(&g[gh_len..], w, b, s, odd, tv);
    let buffers = Buffers {
        stride: s,
        dh: &d[0..dh_len],
        dv: &d[dh_len..],
        gh: &g[0..gh_len],
        tv,
    };
    fuse_rows(block, &buffers, room, out);
}
