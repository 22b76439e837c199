ghost use Rattle.std.specs.Prelude.{◌≡◌};
ghost use Rattle.test_frames.specs.Generator.{affine, next, reading};

pub const MULTIPLIER: u32 = 1664525;

pub const INCREMENT: u32 = 1013904223;

// a x + c, modulo 2^32. In 64 bits it does not wrap.
#[tactic(auto, unfolding(crate::specs::Generator::affine))]
pub fn affine(a: u32, c: u32, x: u32) -> u32
    ensures { result ≡ affine a c x }
{
    ((u64::from(a) * u64::from(x) + u64::from(c)) % 4294967296) as u32
}

// The next state.
pub fn step(state: u32) -> u32
    ensures { result ≡ next state }
{
    affine(MULTIPLIER, INCREMENT, state)
}

// The reading of a new state.
pub fn reading(state: u32) -> u16
    ensures { result ≡ reading state }
{
    (state / 1048576) as u16
}
