ghost use Rattle.std.specs.Prelude.{◌≡◌, pos, nat_abs, ◌-ℤ◌};
ghost use Rattle.blend.specs.Blend.{axis};
ghost use Rattle.bayer.specs.Readings.{Readings};

// How much the readings vary along a row or a column, and four times the estimate of green from them.
#[derive(Clone, Copy)]
pub struct Axis {
    pub variation: u16,
    pub estimate: i16,
}

// `abs_diff` by the name that docs/a8.patch lists for callers of this crate: it stays for them.
pub fn distance(a: u16, b: u16) -> u16
    ensures { result ≡ nat_abs (pos a -ℤ pos b) }
{
    a.abs_diff(b)
}

// Centre c, neighbours l and r, second neighbours p and q.
pub fn variation(c: u16, l: u16, r: u16, p: u16, q: u16) -> u16
    requires { Readings c l r p q }
    ensures { result ≡ (axis c l r p q).variation }
{
    distance(l, r) + distance(2 * c, p + q)
}

pub fn estimate(c: u16, l: u16, r: u16, p: u16, q: u16) -> i16
    requires { Readings c l r p q }
    ensures { result ≡ (axis c l r p q).estimate }
{
    (2 * (l + r + c)) as i16 - (p + q) as i16
}
