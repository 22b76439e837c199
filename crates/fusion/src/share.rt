ghost use Rattle.std.specs.Prelude.{◌≡◌, ◌+◌, ◌*◌, ◌/◌, ◌^◌, ◌≤◌, ◌<◌, ltb};
ghost use Rattle.floats.specs.Float.{float, val, WholeUpTo};
ghost use Rattle.gbtf.specs.Bounds.{most_sum};
ghost use Rattle.gbtf.specs.Fusion.{share};
ghost use Rattle.gbtf.specs.Weights.{scale};

use floats::one_if;

// z at the share scale.
fn scaled(z: f64) -> f64
    requires { WholeUpTo (2 ^ 40) z }
    ensures { result ≡ float (scale * val z) }
{
    z * 16777216.0
}

// 2^24 z / y, to a nearest whole number: 1.5 × 2^52 is added and taken off. It is the floor, or one more.
fn guess(z: f64, y: f64) -> f64
    requires { (WholeUpTo (2 ^ 40) z) × (WholeUpTo (2 ^ 40) y) × (0 < val z) × (val z ≤ val y) }
    ensures { (WholeUpTo 16777217 result) × (scale * val z / val y ≤ val result) × (val result ≤ scale * val z / val y + 1) }
{
    (scaled(z) / y + 6755399441055744.0) - 6755399441055744.0
}

// Whether q is above 2^24 z / y. `high` is a multiple of 2^20 from y up, so that every product is exact.
fn exceeds(q: f64, z: f64, y: f64) -> bool
    requires { (WholeUpTo 16777217 q) × (WholeUpTo (2 ^ 40) z) × (WholeUpTo (2 ^ 40) y) }
    ensures { result ≡ ltb (scale * val z) (val q * val y) }
{
    let high = (y + 7083549724304467820544.0) - 7083549724304466771968.0;
    q * (high - y) < q * high - scaled(z)
}

// The floor of 2^24 z / y.
fn quotient(z: f64, y: f64) -> f64
    requires { (WholeUpTo (2 ^ 40) z) × (WholeUpTo (2 ^ 40) y) × (0 < val z) × (val z ≤ val y) }
    ensures { (WholeUpTo scale result) × (val result ≡ scale * val z / val y) }
{
    let q = guess(z, y);
    q - one_if(exceeds(q, z, y))
}

// The share of a direction of guarded sum t, where m is the smallest.
pub fn share(m: f64, t: f64) -> f64
    requires { (WholeUpTo most_sum m) × (WholeUpTo most_sum t) × (0 < val m) × (val m ≤ val t) }
    ensures { (WholeUpTo scale result) × (val result ≡ share scale (val m) (val t)) }
{
    quotient(m * m, t * t)
}
