// Whole-number arithmetic: the range of a sample.
#![tactic(auto)]

ghost use Rattle.std.specs.Prelude.{◌≡◌};
ghost use Rattle.whole.specs.Clamp.{clamp};

// x stopped at 0 and 65520.
pub fn clamp(x: i32) -> u16
    ensures { result ≡ clamp x }
{
    x.clamp(0, 65520) as u16
}
