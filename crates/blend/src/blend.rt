ghost use Rattle.std.specs.Prelude.{◌≡◌, ◌-◌, ◌≤◌, pos, neg_ℤ, ◌-ℤ◌};
ghost use Rattle.blend.specs.Logistic.{weight_at};
ghost use Rattle.blend.specs.Blend.{by_variation, blend};
ghost use Rattle.blend.specs.Machine.{place_of, Fitting};

use crate::axis::Axis;

// The estimate of the axis that varies more, less the other's.
fn gap(row: Axis, column: Axis) -> i16
    requires { Fitting row column }
    ensures { result ≡ by_variation (λ more less. more.estimate -ℤ less.estimate) row column }
{
    if column.variation < row.variation {
        row.estimate - column.estimate
    } else {
        column.estimate - row.estimate
    }
}

// A weight less a half of 65536.
fn below_half(weight: u16) -> i16
    requires { weight ≤ 32768 }
    ensures { result ≡ neg_ℤ (pos (32768 - weight)) }
{
    (i32::from(weight) - 32768) as i16
}

// Green in units at a red or blue pixel, from its row and its column, and the weight of the one that varies more.
// By the weights w and 65536 - w, x and y add up to 32768 (x + y) + (w - 32768) (x - y): one product, of two numbers of 16 bits.
pub fn blend(weight: u16, row: Axis, column: Axis) -> u16
    requires { (weight ≡ weight_at (place_of row.variation column.variation)) × (Fitting row column) }
    ensures { result ≡ blend row column }
{
    let product = i32::from(below_half(weight)) * i32::from(gap(row, column));
    let sum = i32::from(row.estimate) + i32::from(column.estimate);
    whole::clamp(2 * sum + ((product + 8192) >> 14))
}
