ghost use Rattle.std.specs.Prelude.{◌≡◌, ◌∷◌, [], ◌≤◌, pos, nat_abs, ◌+ℤ◌, ◌-ℤ◌};
ghost use Rattle.demosaic.specs.Fill.{colour_difference, sum_of, unclamped};

// Green minus 16 times the reading, at a pixel of the wanted colour.
pub fn colour_difference(green: u16, reading: u16) -> i32
    ensures { (result ≡ colour_difference green reading) × (nat_abs result ≤ 1048560) }
{
    i32::from(green) - 16 * i32::from(reading)
}

// n - sum + half.
fn lifted(n: u32, sum: i32, half: u32) -> i32
    requires { (n ≤ 262140) × (nat_abs sum ≤ 4194240) × (half ≤ 2) }
    ensures { (result ≡ pos n -ℤ sum +ℤ pos half) × (nat_abs result ≤ 4456382) }
{
    n as i32 - sum + half as i32
}

// From the four diagonal neighbours, before the clamp: g is the pixel's green, the rest the neighbours' colour differences.
pub fn diagonal(g: u16, nw: i32, ne: i32, sw: i32, se: i32) -> i32
    requires { (nat_abs nw ≤ 1048560) × (nat_abs ne ≤ 1048560) × (nat_abs sw ≤ 1048560) × (nat_abs se ≤ 1048560) }
    ensures { result ≡ unclamped 4 g (sum_of (nw ∷ ne ∷ sw ∷ se ∷ [])) }
{
    lifted(4 * u32::from(g), nw + ne + (sw + se), 2) >> 2
}

// From the two neighbours in the row, or in the column.
pub fn pair(g: u16, before: i32, after: i32) -> i32
    requires { (nat_abs before ≤ 1048560) × (nat_abs after ≤ 1048560) }
    ensures { result ≡ unclamped 2 g (sum_of (before ∷ after ∷ [])) }
{
    lifted(2 * u32::from(g), before + after, 1) >> 1
}
