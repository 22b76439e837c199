ghost use Rattle.std.specs.Prelude.{◌≡◌, true, false, ◌≤◌, nat_abs, neg_ℤ, ◌-ℤ◌};
ghost use Rattle.gbtf.specs.Bounds.{most_difference};
ghost use Rattle.gbtf.specs.Difference.{difference, plain_gradient};
ghost use Rattle.gbtf.specs.Machine.{Readings};

// The directional difference, in quarter steps, at a red or blue centre. Along row i: centre c at column j, neighbours l and r at j-1 and j+1, second neighbours p and q at j-2 and j+2.
// Along a column likewise. Its steps are source 004's equations 4 and 8, each multiplied by 4, in the order of the text.
// Equation 4 is printed for the estimate of red (R) where the centre is green (G). For the estimate of green the two change places; blue is as red.
// At a green centre the same steps give the difference with its sign turned: a gradient is the same, and a five-sum turns it back.
pub fn difference(c: u16, l: u16, r: u16, p: u16, q: u16) -> i16
    requires { Readings c l r p q }
    ensures value { result ≡ difference false c l r p q }
    ensures result_value { neg_ℤ result ≡ difference true c l r p q }
{
    // Equation 4, (R(i, j-1) + R(i, j+1)) / 2: the two neighbours.
    let neighbours = 2 * (i32::from(l) + i32::from(r));
    // Equation 4, (2 × G(i, j) - G(i, j-2) - G(i, j+2)) / 4: the second difference of the centre's colour.
    let second_difference = 2 * i32::from(c) - i32::from(p) - i32::from(q);
    // Equation 4: their sum, the estimate of the colour that the centre lacks.
    let estimate = neighbours + second_difference;
    // Equation 8: green minus colour, the estimate minus the centre.
    (estimate - 4 * i32::from(c)) as i16
}

// The plain gradient, from the differences before and after a position. Of readings these are no further apart than a difference can be from 0.
pub fn plain_gradient(before: i16, after: i16) -> u16
    requires { nat_abs (before -ℤ after) ≤ most_difference }
    ensures { result ≡ plain_gradient before after }
{
    (before - after).unsigned_abs()
}
