ghost use Rattle.std.specs.Prelude.{◌≡◌, ◌+◌, ◌*◌, ◌≤◌, ◌<◌, length};
ghost use Rattle.lists.specs.Table.{table};
ghost use Rattle.lists.specs.Bound.{AllWithin};
ghost use Rattle.fill_rows.specs.HalfFill.{pair_in, diagonal_in};

use demosaic::fill::{diagonal, pair};

// At every second column, from two neighbours: place k of a and of b.
pub fn pairs(g: &[u16], a: &[i32], b: &[i32], out: &mut [u16])
    requires out_in_bounds { (2 * length out.old ≤ length g.now + 1) × (length out.old ≤ length a.now) × (length out.old ≤ length b.now) }
    requires all_within { (AllWithin 1048560 a.now) × (AllWithin 1048560 b.now) }
    ensures { out.new ≡ table (pair_in g.now a.now b.now) (length out.old) }
{
    for (k, sample) in out.iter_mut().enumerate() {
        *sample = whole::clamp(pair(g[2 * k], a[k], b[k]));
    }
}

// The same from four: places k and k + 1 of a and of b.
pub fn diagonals(g: &[u16], a: &[i32], b: &[i32], out: &mut [u16])
    requires out_in_bounds { (2 * length out.old ≤ length g.now + 1) × (length out.old < length a.now) × (length out.old < length b.now) }
    requires all_within { (AllWithin 1048560 a.now) × (AllWithin 1048560 b.now) }
    ensures { out.new ≡ table (diagonal_in g.now a.now b.now) (length out.old) }
{
    for (k, sample) in out.iter_mut().enumerate() {
        *sample = whole::clamp(diagonal(g[2 * k], a[k], a[k + 1], b[k], b[k + 1]));
    }
}
