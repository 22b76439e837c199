ghost use Rattle.std.specs.Prelude.{◌≡◌, ◌∷◌, [], ◌*◌, ◌≤◌, ◌<◌, min, pos, nat_abs, ◌+ℤ◌};
ghost use Rattle.whole.specs.Clamp.{clamp};
ghost use Rattle.floats.specs.Float.{val, WholeUpTo};
ghost use Rattle.gbtf.specs.Bounds.{most_sum};
ghost use Rattle.gbtf.specs.Direction.{guarded_sum};
ghost use Rattle.gbtf.specs.Fusion.{fused};
ghost use Rattle.gbtf.specs.Machine.{Fitting};
ghost use Rattle.gbtf.specs.Weights.{scale};

use crate::mean::mean;
use crate::share::share;
use gbtf::direction::Direction;

// The guarded sum, which is never 0.
// Not `f64::max`: tried, its proof did not close (`floats` has laws of `lt`, and `max` is told by `le` and by NaNs).
fn guarded_sum(d: Direction) -> f64
    requires { d.sum ≤ most_sum }
    ensures { (WholeUpTo most_sum result) × (val result ≡ guarded_sum d) }
{
    let t = f64::from(d.sum as i32);
    if t < 4.0 { 4.0 } else { t }
}

// Not `f64::min`, which asks besides whether one is a NaN: tried, the smallest of four took more than twice as long.
#[tactic(auto, using(crate::proofs::SmallerLaws::smaller_first, crate::proofs::SmallerLaws::smaller_second))]
fn smaller(a: f64, b: f64) -> f64
    requires { (WholeUpTo most_sum a) × (WholeUpTo most_sum b) }
    ensures { (WholeUpTo most_sum result) × (val result ≡ min (val a) (val b)) }
{
    if a < b { a } else { b }
}

// m: the smallest of the four guarded sums.
fn smallest(e: f64, w: f64, n: f64, s: f64) -> f64
    requires { (WholeUpTo most_sum e) × (WholeUpTo most_sum w) × (WholeUpTo most_sum n) × (WholeUpTo most_sum s) }
    ensures { (WholeUpTo most_sum result) × (val result ≡ min (val e) (min (val w) (min (val n) (val s)))) }
{
    smaller(smaller(e, w), smaller(n, s))
}

// The five-sum, lifted by what makes every one positive.
fn lifted_five_sum(total: u32, d: Direction) -> f64
    requires { (total ≤ 100) × (nat_abs d.five ≤ 32767 * total) }
    ensures { (WholeUpTo 6553500 result) × (pos (val result) ≡ d.five +ℤ pos (32768 * total)) }
{
    f64::from(d.five + (32768 * total) as i32)
}

// What fusion adds to 16c. Each five-sum lifted by 32768 totals lifts it by 131072.
pub fn fusion(
    total: u32,
    east: Direction,
    west: Direction,
    north: Direction,
    south: Direction,
) -> i32
    requires total_nonzero { (0 < total) × (total ≤ 100) }
    requires fitting { (Fitting total east) × (Fitting total west) × (Fitting total north) × (Fitting total south) }
    ensures value { result ≡ fused scale total east (west ∷ north ∷ south ∷ []) }
    ensures result_bound { nat_abs result ≤ 131072 }
{
    let te = guarded_sum(east);
    let tw = guarded_sum(west);
    let tn = guarded_sum(north);
    let ts = guarded_sum(south);
    let m = smallest(te, tw, tn, ts);
    let e = share(m, te);
    let w = share(m, tw);
    let n = share(m, tn);
    let s = share(m, ts);
    let a = (e * lifted_five_sum(total, east) + w * lifted_five_sum(total, west))
        + (n * lifted_five_sum(total, north) + s * lifted_five_sum(total, south));
    mean(a, f64::from(total as i32) * ((e + w) + (n + s))) - 131072
}

// Green in units at a red or blue pixel of reading c, from what fusion adds.
pub fn green(c: u16, added: i32) -> u16
    requires { nat_abs added ≤ 131072 }
    ensures { result ≡ clamp (pos (16 * c) +ℤ added) }
{
    whole::clamp(16 * i32::from(c) + added)
}
