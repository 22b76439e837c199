ghost use Rattle.std.specs.Prelude.{◌≡◌, ◌*◌, ◌+◌, ◌≤◌, length};
ghost use Rattle.lists.specs.Table.{table};
ghost use Rattle.lists.specs.Bound.{AllWithin};
ghost use Rattle.fill_rows.specs.FillRow.{colour_difference_at};
ghost use Rattle.fill_rows.specs.HalfFill.{places, edged};

use crate::row::Row;
use demosaic::fill::colour_difference;

// The colour differences at every second column, from the first on.
fn differences(x: &[u16], g: &[u16], out: &mut [i32])
    requires { (length g.now ≡ length x.now) × (2 * length out.old ≤ length x.now + 1) }
    ensures value { out.new ≡ table (λ k. colour_difference_at x.now g.now (2 * k)) (length out.old) }
    ensures within { AllWithin 1048560 out.new }
{
    for (k, difference) in out.iter_mut().enumerate() {
        *difference = colour_difference(g[2 * k], x[2 * k]);
    }
}

// Those of a row at its red or blue pixels; the first and the last stand once more, at the ends, where the mirrors read beside the first and the last column.
// A row with a pixel less has the last a third time, so that all rows have lists of one length.
pub fn edged(row: &Row<'_>, out: &mut [i32])
    requires { length out.old ≡ places (length row.now.readings.now) }
    ensures { out.new ≡ edged (length row.now.readings.now) row.now.side row.now.readings.now row.now.greens.now }
{
    let m = row.pixels();
    let end = m + 1;
    let last = out.len() - 1;
    differences(
        &row.readings[row.side..],
        &row.greens[row.side..],
        &mut out[1..end],
    );
    out[0] = out[1];
    out[end] = out[m];
    out[last] = out[m];
}
