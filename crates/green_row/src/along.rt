ghost use Rattle.std.specs.Prelude.{◌≡◌, ◌+◌, ◌*◌, ◌≤◌, ◌<◌, length};
ghost use Rattle.lists.specs.Table.{table};
ghost use Rattle.lists.specs.Bound.{AllAtMost};
ghost use Rattle.gbtf.specs.Bounds.{most_difference};
ghost use Rattle.green_row.specs.AlongAxis.{difference_in, plain_gradient_in, gradient_in, Apart};

use gbtf::difference::{difference, plain_gradient};

// The difference at place k + 2 * step of x, as at a red or blue place.
fn difference_at(x: &[u16], step: usize, k: usize) -> i16
    requires { (k + 4 * step < length x.now) × (AllAtMost 4095 x.now) }
    ensures { result ≡ difference_in step x.now k }
{
    difference(
        x[k + 2 * step],
        x[k + step],
        x[k + 3 * step],
        x[k],
        x[k + 4 * step],
    )
}

// The differences along an axis whose places are `step` apart: 1 along a row, a row's width along a column.
pub fn differences(x: &[u16], step: usize, out: &mut [i16])
    requires { (length out.old + 4 * step ≤ length x.now) × (AllAtMost 4095 x.now) }
    ensures { out.new ≡ table (difference_in step x.now) (length out.old) }
{
    for (k, value) in out.iter_mut().enumerate() {
        *value = difference_at(x, step, k);
    }
}

// The plain gradient at place k + step of d.
fn plain_gradient_at(d: &[i16], step: usize, k: usize) -> u16
    requires { (k + 2 * step < length d.now) × (Apart step d.now) }
    ensures value { result ≡ plain_gradient_in step d.now k }
    ensures upper_bound { result ≤ most_difference }
{
    plain_gradient(d[k], d[k + 2 * step])
}

// The gradient at place k + 2 * step of d: the sum of three plain ones, at the place before, at this one and at the one after.
fn gradient_at(d: &[i16], step: usize, k: usize) -> u16
    requires { (k + 4 * step < length d.now) × (Apart step d.now) }
    ensures { result ≡ gradient_in step d.now k }
{
    let before = plain_gradient_at(d, step, k);
    let here = plain_gradient_at(d, step, k + step);
    let after = plain_gradient_at(d, step, k + 2 * step);
    before + here + after
}

// The gradients along the same axis, in one pass.
pub fn gradients(d: &[i16], step: usize, out: &mut [u16])
    requires { (length out.old + 4 * step ≤ length d.now) × (Apart step d.now) }
    ensures { out.new ≡ table (gradient_in step d.now) (length out.old) }
{
    for (k, value) in out.iter_mut().enumerate() {
        *value = gradient_at(d, step, k);
    }
}
