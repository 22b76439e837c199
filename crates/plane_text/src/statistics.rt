ghost use Rattle.std.specs.Prelude.{◌≡◌, ◌≤◌, length};
ghost use Rattle.plane_text.specs.Statistics.{smallest, largest, sum};

#[tactic(auto, using(crate::proofs::FoldLaws::reduced))]
pub fn smallest_of(plane: &[u16]) -> u16
    ensures { result ≡ smallest plane.now }
{
    plane.iter().copied().reduce(u16::min).unwrap_or(0)
}

#[tactic(auto, using(crate::proofs::FoldLaws::reduced))]
pub fn largest_of(plane: &[u16]) -> u16
    ensures { result ≡ largest plane.now }
{
    plane.iter().copied().reduce(u16::max).unwrap_or(0)
}

// At most 4096 samples, so that their sum fits.
#[tactic(auto, using(crate::proofs::FoldLaws::summed))]
pub fn sum_of(plane: &[u16]) -> u32
    requires { length plane.now ≤ 4096 }
    ensures { result ≡ sum plane.now }
{
    plane.iter().map(|x| u32::from(*x)).sum()
}
