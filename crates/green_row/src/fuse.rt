ghost use Rattle.std.specs.Prelude.{◌≡◌, ◌+◌, ◌*◌, ◌-◌, ◌/◌, ◌≤◌, ◌<◌, pos, ◌+ℤ◌, length, get_or};
ghost use Rattle.whole.specs.Clamp.{clamp};
ghost use Rattle.lists.specs.Table.{table};
ghost use Rattle.lists.specs.Bound.{AllAtMost, AllWithin};
ghost use Rattle.half_rows.specs.HalfRow.{pixels};
ghost use Rattle.gbtf.specs.Bounds.{most_sum};
ghost use Rattle.gbtf.specs.Direction.{direction, total};
ghost use Rattle.gbtf.specs.Weights.{scale, weights_of};
ghost use Rattle.green_row.specs.Directions.{direction_in, direction_from};
ghost use Rattle.green_row.specs.Buffers.{AroundRow};
ghost use Rattle.green_row.specs.GreenIn.{fused_by, green_by, green_in};

use crate::directions::row_fives;
use crate::room::{Buffers, RowRoom};
use crate::sums::sums;
use fusion::pixel::{fusion, green};
use gbtf::direction::Direction;
use gbtf::weights::{total, weights_of};
use half_rows::{interleave, observed};

// The direction whose five-sum is at place p of f and whose direction sum is at place q of t.
fn direction_at(f: &[i32], p: usize, t: &[u32], q: usize) -> Direction
    requires { (p < length f.now) × (q < length t.now) }
    ensures { result ≡ direction (get_or f.now p (pos 0)) (get_or t.now q 0) }
{
    Direction {
        five: f[p],
        sum: t[q],
    }
}

// What fusion adds at pixel i of n. What a loop over pixels reads it is lent as slices, not in a struct, for speed.
#[tactic(auto, unfolding(crate::specs::GreenIn::fused_by))]
fn fused_at(total: u32, n: usize, h: usize, t: &[u32], tv: &[u32], f: &[i32], i: usize) -> i32
    requires i_lt_n { (i < n) × (n ≤ h) × (h ≤ 4096) × (length t.now ≡ n + 1) × (length tv.now ≡ 3 * h) × (length f.now ≡ 4 * n) × (0 < total) × (total ≤ 100) }
    requires all_at_most { (AllAtMost most_sum t.now) × (AllAtMost most_sum tv.now) × (AllWithin (32767 * total) f.now) }
    ensures { result ≡ fused_by scale total (direction_from n h t.now tv.now f.now i) }
{
    let east = direction_at(f, i, t, i + 1);
    let west = direction_at(f, n + i, t, i);
    let north = direction_at(f, 2 * n + i, tv, i);
    let south = direction_at(f, 3 * n + i, tv, 2 * h + i);
    fusion(total, east, west, north, south)
}

// What fusion adds at each red or blue pixel of a row, with the weights' total: f holds their five-sums, t and tv their direction sums.
fn fuse_row(total: u32, h: usize, t: &[u32], tv: &[u32], f: &[i32], out: &mut [i32])
    requires out_len_bound { (length out.old ≤ h) × (h ≤ 4096) × (length t.now ≡ length out.old + 1) × (length tv.now ≡ 3 * h) × (length f.now ≡ 4 * length out.old) × (0 < total) × (total ≤ 100) }
    requires all_at_most { (AllAtMost most_sum t.now) × (AllAtMost most_sum tv.now) × (AllWithin (32767 * total) f.now) }
    ensures { out.new ≡ table (λ i. fused_by scale total (direction_from (length out.old) h t.now tv.now f.now i)) (length out.old) }
{
    let n = out.len();
    for (i, added) in out.iter_mut().enumerate() {
        *added = fused_at(total, n, h, t, tv, f, i);
    }
}

// Green at every second column of x, from the first on, where r is what fusion adds.
fn estimated(x: &[u16], r: &[i32], out: &mut [u16])
    requires { (2 * length out.old ≤ length x.now + 1) × (length r.now ≡ length out.old) × (AllWithin 131072 r.now) }
    ensures { out.new ≡ table (λ k. clamp (pos (16 * get_or x.now (2 * k) 0) +ℤ get_or r.now k (pos 0))) (length out.old) }
{
    for (k, sample) in out.iter_mut().enumerate() {
        *sample = green(x[2 * k], r[k]);
    }
}

// Green of a row of readings x, where r is what fusion adds at its red and blue pixels. p and q are room for the half rows of these and of the others.
fn green_row(x: &[u16], odd: usize, r: &[i32], p: &mut [u16], q: &mut [u16], out: &mut [u16])
    requires odd_bound { (odd < 2) × (AllAtMost 4095 x.now) × (0 < length x.now) × (length x.now ≤ 4096) × (length out.old ≡ length x.now) }
    requires p_len { (length p.old ≡ pixels (length x.now) odd) × (length p.old + length q.old ≡ length x.now) × (length r.now ≡ length p.old) × (AllWithin 131072 r.now) }
    ensures { out.new ≡ table (green_by odd x.now (λ j. get_or r.now (j / 2) (pos 0))) (length x.now) }
{
    let other = 1 - odd;
    estimated(&x[odd..], r, p);
    observed(&x[other..], q);
    interleave(odd, p, q, out);
}

// What fusion adds at each red or blue pixel of a row of w columns, by the frame description's smoothing. t and f are room for its direction sums and five-sums.
// Seven parameters: t, f and `out` are parts of one room, cut to the row, and a struct of the three would be made for one call alone: no plainer.
fn added(
    smoothing: u8,
    w: usize,
    odd: usize,
    buffers: &Buffers<'_>,
    t: &mut [u32],
    f: &mut [i32],
    out: &mut [i32],
)
    requires odd_bound { odd < 2 }
    requires around { AroundRow w buffers.now.stride (length buffers.now.dh.now) (length buffers.now.dv.now) (length buffers.now.gh.now) (length buffers.now.tv.now) }
    requires out_len { length out.old ≡ pixels w odd }
    requires t_len { length t.old ≡ length out.old + 1 }
    requires f_len { length f.old ≡ 4 * length out.old }
    ensures value { out.new ≡ table (λ i. fused_by scale (total (weights_of smoothing)) (direction_in (weights_of smoothing) buffers.now.stride ((w + 1) / 2) buffers.now.dh.now buffers.now.dv.now buffers.now.gh.now buffers.now.tv.now (2 * i + odd))) (length out.old) }
    ensures range { AllWithin 131072 out.new }
{
    let h = (w + 1) / 2;
    let weights = weights_of(smoothing);
    sums(buffers.gh, buffers.stride, 3 + odd, t);
    row_fives(
        smoothing,
        buffers.stride,
        odd,
        buffers.dh,
        buffers.dv,
        out.len(),
        f,
    );
    fuse_row(total(weights), h, t, buffers.tv, f, out);
}

// Green of a row of readings x, by the frame description's smoothing, in as much of the room as the row needs.
pub fn fuse_in(
    smoothing: u8,
    x: &[u16],
    odd: usize,
    buffers: &Buffers<'_>,
    room: &mut RowRoom<'_>,
    out: &mut [u16],
)
    requires odd_bound { odd < 2 }
    requires x_len { 0 < length x.now }
    requires x_at_most { AllAtMost 4095 x.now }
    requires out_len { length out.old ≡ length x.now }
    requires around { AroundRow (length x.now) buffers.now.stride (length buffers.now.dh.now) (length buffers.now.dv.now) (length buffers.now.gh.now) (length buffers.now.tv.now) }
    requires room_for_x { length x.now ≤ room.old.columns }
    ensures value { out.new ≡ table (green_in scale (weights_of smoothing) buffers.now.stride odd x.now buffers.now.dh.now buffers.now.dv.now buffers.now.gh.now buffers.now.tv.now) (length x.now) }
    ensures same_room { room.new ≡ room.old }
{
    let w = x.len();
    let n = (w + 1 - odd) / 2;
    let m = w - n;
    let sums = n + 1;
    let fives = 4 * n;
    let r = &mut room.added[0..n];
    added(
        smoothing,
        w,
        odd,
        buffers,
        &mut room.sums[0..sums],
        &mut room.fives[0..fives],
        r,
    );
    green_row(
        x,
        odd,
        r,
        &mut room.half[0..n],
        &mut room.other_half[0..m],
        out,
    );
}
