// The weights of the five differences.
ghost use Rattle.std.specs.Prelude.{◌≡◌, ◌≤◌, ◌<◌};
ghost use Rattle.gbtf.specs.Direction.{total};
ghost use Rattle.gbtf.specs.Weights.{weights_of};

// The weights by the frame description's smoothing, from the pixel outward: even, or in hundredths. Their total is above 0 and at most 100, as fusion asks.
pub fn weights_of(smoothing: u8) -> [u8; 5]
    ensures value { result ≡ weights_of smoothing }
    ensures result_nonzero { (0 < total result) × (total result ≤ 100) }
{
    if smoothing == 0 {
        [1, 1, 1, 1, 1]
    } else {
        [26, 24, 21, 17, 12]
    }
}

// Not `weights.iter().map(..).sum()`: tried, its proof did not close (that the sum fits, and what it is).
pub fn total(weights: [u8; 5]) -> u32
    ensures { result ≡ total weights }
{
    u32::from(weights[0])
        + u32::from(weights[1])
        + u32::from(weights[2])
        + u32::from(weights[3])
        + u32::from(weights[4])
}
