ghost use Rattle.std.specs.Prelude.{◌≡◌, ◌+◌, ◌*◌, ◌/◌, ◌^◌, ◌≤◌, ◌<◌, pos};
ghost use Rattle.floats.specs.Float.{val, WholeUpTo};

// The whole number nearest to 4n / u, a half upward. (16n + 1) / (4u) lies at least 1 / (4u) from every half, so it may be rounded twice.
pub fn mean(n: f64, u: f64) -> i32
    requires { (WholeUpTo (65535 * 2 ^ 33) n) × (WholeUpTo (2 ^ 33) u) × (0 < val u) × (val n ≤ 65535 * val u) }
    ensures { result ≡ pos ((8 * val n + val u) / (2 * val u)) }
{
    let w = ((16.0 * n + 1.0) / (4.0 * u) + 6755399441055744.0) - 6755399441055744.0;
    w as i32
}
