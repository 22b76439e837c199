ghost use Rattle.std.specs.Prelude.{◌≡◌, ◌+◌, ◌≤◌, pos, nat_abs, ◌*ℤ◌, get_or};
ghost use Rattle.gbtf.specs.Direction.{direction_sum, alternating, five_sum};

// What green takes from one direction: its five-sum and its direction sum.
#[derive(Clone, Copy)]
pub struct Direction {
    pub five: i32,
    pub sum: u32,
}

fn row_sum(row: [u16; 3]) -> u32
    ensures value { result ≡ get_or row 0 0 + get_or row 1 0 + get_or row 2 0 }
    ensures bound { result ≤ 196605 }
{
    row.iter().map(|gradient| u32::from(*gradient)).sum()
}

// The sum of the nine gradients of a window, three rows of three.
pub fn direction_sum(g: [[u16; 3]; 3]) -> u32
    ensures { result ≡ direction_sum g }
{
    let [above, across, below] = g;
    row_sum(above) + row_sum(across) + row_sum(below)
}

// A difference by its weight.
fn weighted(weight: u8, d: i16) -> i32
    ensures { (result ≡ pos weight *ℤ d) × (nat_abs result ≤ 8355840) }
{
    i32::from(weight) * i32::from(d)
}

// The five differences from the pixel outward, by their weights. The second and the fourth are at green centres, so their signs are turned.
pub fn five_sum(weights: [u8; 5], d: [i16; 5]) -> i32
    ensures { result ≡ five_sum weights (alternating (λ k. get_or d k (pos 0))) }
{
    weighted(weights[0], d[0]) - weighted(weights[1], d[1]) + weighted(weights[2], d[2])
        - weighted(weights[3], d[3])
        + weighted(weights[4], d[4])
}
