// Whole numbers in 64-bit floats.
#![tactic(auto)]

ghost use Rattle.std.specs.Prelude.{◌≡◌, cond};
ghost use Rattle.floats.specs.Float.{float};

pub fn one_if(b: bool) -> f64
    ensures { result ≡ float (cond b 1 0) }
{
    f64::from(b)
}
