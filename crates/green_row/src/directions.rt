ghost use Rattle.std.specs.Prelude.{◌≡◌, ◌+◌, ◌*◌, ◌≤◌, length};
ghost use Rattle.lists.specs.Table.{table, joined};
ghost use Rattle.gbtf.specs.Direction.{alternating, five_sum};
ghost use Rattle.gbtf.specs.Weights.{weights_of};
ghost use Rattle.green_row.specs.Directions.{after, before, reversed, five_in};

use crate::sums::fives;
use gbtf::weights::weights_of;

// The weights for five differences that are taken the other way round.
fn reversed(w: [u8; 5]) -> [u8; 5]
    ensures { result ≡ reversed w }
{
    [w[4], w[3], w[2], w[1], w[0]]
}

// The five-sums of every second place from `at` on, with the weights of a smoothing, each of its place and those after it, `step` apart. In both branches the weights
// are constants, by which the compiler multiplies several places at once.
fn fives_after(smoothing: u8, d: &[i16], step: usize, at: usize, out: &mut [i32])
    requires { at + 2 * length out.old + 4 * step ≤ length d.now }
    ensures { out.new ≡ table (λ k. five_sum (weights_of smoothing) (alternating (after step d.now (at + 2 * k)))) (length out.old) }
{
    if smoothing == 0 {
        fives(weights_of(0), d, step, at, out);
    } else {
        fives(weights_of(1), d, step, at, out);
    }
}

// The same from `at` + 4 * step on, each of its place and those before it. One function for both would take the order of the weights as a closure, and its clause
// would say by that order which places are read: no plainer than these two.
fn fives_before(smoothing: u8, d: &[i16], step: usize, at: usize, out: &mut [i32])
    requires { at + 2 * length out.old + 4 * step ≤ length d.now }
    ensures { out.new ≡ table (λ k. five_sum (weights_of smoothing) (alternating (before step d.now (at + 4 * step + 2 * k)))) (length out.old) }
{
    if smoothing == 0 {
        fives(reversed(weights_of(0)), d, step, at, out);
    } else {
        fives(reversed(weights_of(1)), d, step, at, out);
    }
}

// The five-sums of the n pixels of a row at columns side, side + 2, .., with the weights of a smoothing: all to the east, then west, north and south.
// Seven parameters: a struct of the differences and their stride would be made for one call alone, as the buffers hold more than is read here: no plainer.
pub fn row_fives(
    smoothing: u8,
    s: usize,
    side: usize,
    dh: &[i16],
    dv: &[i16],
    n: usize,
    f: &mut [i32],
)
    requires { (side + 2 * n + 13 ≤ s) × (s ≤ 4110) × (length dh.now ≡ 3 * s) × (length dv.now ≡ 9 * s) × (length f.old ≡ 4 * n) }
    ensures { f.new ≡ joined (λ k. table (λ i. five_in (weights_of smoothing) s dh.now dv.now k (2 * i + side)) n) 4 }
{
    let two = 2 * n;
    let three = 3 * n;
    let four = 4 * n;
    fives_after(smoothing, dh, 1, s + 7 + side, &mut f[0..n]);
    fives_before(smoothing, dh, 1, s + 3 + side, &mut f[n..two]);
    fives_before(smoothing, dv, s, 7 + side, &mut f[two..three]);
    fives_after(smoothing, dv, s, 4 * s + 7 + side, &mut f[three..four]);
}
