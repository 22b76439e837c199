// The half row of a row's red and blue pixels: each number of all its pixels in a pass of its own, so that several pixels are worked out at once.
ghost use Rattle.std.specs.Prelude.{◌≡◌, ◌+◌, ◌*◌, ◌≤◌, ◌<◌, length, get_or};
ghost use Rattle.lists.specs.Table.{table};
ghost use Rattle.lists.specs.Bound.{AllAtMost};
ghost use Rattle.blend.specs.Logistic.{weight_at};
ghost use Rattle.blend.specs.Blend.{blend};
ghost use Rattle.blend.specs.Machine.{place_of};
ghost use Rattle.blend_rows.specs.BlendIn.{axis_of, Axes, Weighted, row_axis_in, column_axis_in, blend_in};

use crate::around::Around;
use crate::stencil::Stencil;
use blend::axis::Axis;
use blend::blend::blend;
use blend::logistic::{place, weight};

// The pixels' variations and estimates along the row or along the column.
#[derive(Clone, Copy)]
struct AxisSlices<'a> {
    variations: &'a [u16],
    estimates: &'a [i16],
}

impl AxisSlices<'_> {
    fn axis(self, k: usize) -> Axis
        requires { (k < length self.variations.now) × (k < length self.estimates.now) }
        ensures { result ≡ axis_of self.entry.variations.now self.entry.estimates.now k }
    {
        Axis {
            variation: self.variations[k],
            estimate: self.estimates[k],
        }
    }
}

fn row_places(row: &[u16], column: &[u16], out: &mut [u16])
    requires { (length out.old ≤ length row.now) × (length out.old ≤ length column.now) }
    ensures { out.new ≡ table (λ k. place_of (get_or row.now k 0) (get_or column.now k 0)) (length out.old) }
{
    for (k, sample) in out.iter_mut().enumerate() {
        *sample = place(row[k], column[k]);
    }
}

fn row_weights(places: &[u16], out: &mut [u16])
    requires { (length out.old ≤ length places.now) × (AllAtMost 255 places.now) }
    ensures { out.new ≡ table (λ k. weight_at (get_or places.now k 0)) (length out.old) }
{
    for (k, sample) in out.iter_mut().enumerate() {
        *sample = weight(places[k]);
    }
}

// From the weights, and the axes along the row and along the column.
fn row_blend(weights: &[u16], row: AxisSlices, column: AxisSlices, out: &mut [u16])
    requires axes { Axes (length out.old) row.variations.now column.variations.now row.estimates.now column.estimates.now }
    requires weighted { Weighted (length out.old) weights.now row.variations.now column.variations.now }
    ensures { out.new ≡ table (λ k. blend (axis_of row.entry.variations.now row.entry.estimates.now k) (axis_of column.entry.variations.now column.entry.estimates.now k)) (length out.old) }
{
    for (k, sample) in out.iter_mut().enumerate() {
        *sample = blend(weights[k], row.axis(k), column.axis(k));
    }
}

// Green of the pixels, in p, which first holds the places of the table; q is room for the weights.
fn half_blend(row: AxisSlices, column: AxisSlices, p: &mut [u16], q: &mut [u16])
    requires axes { Axes (length p.old) row.variations.now column.variations.now row.estimates.now column.estimates.now }
    requires same_length { length q.old ≡ length p.old }
    ensures { p.new ≡ table (λ k. blend (axis_of row.entry.variations.now row.entry.estimates.now k) (axis_of column.entry.variations.now column.entry.estimates.now k)) (length p.old) }
{
    row_places(row.variations, column.variations, p);
    row_weights(p, q);
    row_blend(q, row, column, p);
}

fn along_row(around: Around, variations: &mut [u16], estimates: &mut [i16])
    requires room { length variations.old + 2 ≤ around.places }
    requires same_length { length estimates.old ≡ length variations.old }
    ensures variations { variations.new ≡ table (λ k. (row_axis_in around.entry.places around.entry.side around.entry.own.now around.entry.beside.now k).variation) (length variations.old) }
    ensures estimates { estimates.new ≡ table (λ k. (row_axis_in around.entry.places around.entry.side around.entry.own.now around.entry.beside.now k).estimate) (length estimates.old) }
{
    let first = 2 * around.places;
    let centre = first + 1;
    let last = first + 2;
    let next = around.side + 1;
    let stencil = Stencil {
        centre: &around.own[centre..],
        before: &around.beside[around.side..],
        after: &around.beside[next..],
        second_before: &around.own[first..],
        second_after: &around.own[last..],
    };
    stencil.measure(variations, estimates);
}

fn along_column(around: Around, variations: &mut [u16], estimates: &mut [i16])
    requires room { length variations.old + 2 ≤ around.places }
    requires same_length { length estimates.old ≡ length variations.old }
    ensures variations { variations.new ≡ table (λ k. (column_axis_in around.entry.places around.entry.own.now k).variation) (length variations.old) }
    ensures estimates { estimates.new ≡ table (λ k. (column_axis_in around.entry.places around.entry.own.now k).estimate) (length estimates.old) }
{
    let h = around.places;
    let above = h + 1;
    let centre = 2 * h + 1;
    let below = 3 * h + 1;
    let last = 4 * h + 1;
    let stencil = Stencil {
        centre: &around.own[centre..],
        before: &around.own[above..],
        after: &around.own[below..],
        second_before: &around.own[1..],
        second_after: &around.own[last..],
    };
    stencil.measure(variations, estimates);
}

// Green of the pixels, in p. y and d are room for variations and estimates, along the row and then along the column, q for the weights.
pub fn half_greens(around: Around, y: &mut [u16], d: &mut [i16], p: &mut [u16], q: &mut [u16])
    requires room { length p.old + 2 ≤ around.places }
    requires lengths { (length q.old ≡ length p.old) × (length y.old ≡ 2 * length p.old) × (length d.old ≡ 2 * length p.old) }
    ensures { p.new ≡ table (blend_in around.entry.places around.entry.side around.entry.own.now around.entry.beside.now) (length p.old) }
{
    let n = p.len();
    along_row(around, &mut y[0..n], &mut d[0..n]);
    along_column(around, &mut y[n..], &mut d[n..]);
    let row = AxisSlices {
        variations: &y[0..n],
        estimates: &d[0..n],
    };
    let column = AxisSlices {
        variations: &y[n..],
        estimates: &d[n..],
    };
    half_blend(row, column, p, q);
}
