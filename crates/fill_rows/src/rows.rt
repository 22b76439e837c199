ghost use Rattle.std.specs.Prelude.{◌≡◌, ◌≤◌, ◌<◌, length};
ghost use Rattle.lists.specs.Table.{table};
ghost use Rattle.lists.specs.Bound.{AllAtMost};
ghost use Rattle.fill_rows.specs.HalfFill.{own_edged, other_edged};
ghost use Rattle.fill_rows.specs.HalfRoom.{HalfRowsFor};

use crate::half::{diagonals, pairs};
use crate::row::{Differences, HalfRows, Row};
use half_rows::{interleave, observed};

// A row of the plane of the colour that shares it with green, from the row's colour differences. One function for this and `other_row` would take an enum of what
// they fill from, and tell the two apart in its body and again in its clause: no plainer than two.
pub fn own_row(row: &Row<'_>, own: &Differences<'_>, room: &mut HalfRows<'_>, out: &mut [u16])
    requires range { AllAtMost 4095 row.now.readings.now }
    requires out_len { length out.old ≡ length row.now.readings.now }
    requires width { own.now.width ≡ length row.now.readings.now }
    requires room { HalfRowsFor (length row.now.readings.now) room.old }
    ensures value { out.new ≡ table (own_edged row.now.side row.now.readings.now row.now.greens.now own.now.list.now) (length row.now.readings.now) }
    ensures room { room.new ≡ room.old }
{
    let left = 1 - row.side;
    let right = left + 1;
    let m = row.pixels();
    let n = out.len() - m;
    let first = &mut room.first[0..m];
    let second = &mut room.second[0..n];
    observed(&row.readings[row.side..], first);
    pairs(
        &row.greens[left..],
        &own.list[left..],
        &own.list[right..],
        second,
    );
    interleave(row.side, first, second, out);
}

// A row of the plane of the other colour, from the row's greens and the colour differences of the rows above and below, which have the colour where this row is green.
// Its red or blue pixels are at the columns side, side + 2, ..
pub fn other_row(
    side: usize,
    greens: &[u16],
    above: &Differences<'_>,
    below: &Differences<'_>,
    room: &mut HalfRows<'_>,
    out: &mut [u16],
)
    requires side { side < 2 }
    requires wide { 2 ≤ length greens.now }
    requires out_len { length out.old ≡ length greens.now }
    requires above_width { above.now.width ≡ length greens.now }
    requires below_width { below.now.width ≡ length greens.now }
    requires room { HalfRowsFor (length greens.now) room.old }
    ensures value { out.new ≡ table (other_edged side greens.now above.now.list.now below.now.list.now) (length greens.now) }
    ensures room { room.new ≡ room.old }
{
    let green = 1 - side;
    let m = (greens.len() + 1 - side) / 2;
    let n = out.len() - m;
    let first = &mut room.first[0..m];
    let second = &mut room.second[0..n];
    diagonals(
        &greens[side..],
        &above.list[side..],
        &below.list[side..],
        first,
    );
    pairs(&greens[green..], &above.list[1..], &below.list[1..], second);
    interleave(side, first, second, out);
}
