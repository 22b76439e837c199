// What a row's red and blue pixels take from their directions, at every second column.
ghost use Rattle.std.specs.Prelude.{◌≡◌, ◌+◌, ◌*◌, ◌≤◌, ◌<◌, length};
ghost use Rattle.lists.specs.Table.{table};
ghost use Rattle.gbtf.specs.Direction.{direction_sum, alternating, five_sum};
ghost use Rattle.green_row.specs.Directions.{window_in, after, across};

use gbtf::direction::{direction_sum, five_sum};

// The window of gradients from place q on, in rows s places wide.
fn window(g: &[u16], s: usize, q: usize) -> [[u16; 3]; 3]
    requires { q + 2 * s + 2 < length g.now }
    ensures { result ≡ window_in s g.now q }
{
    let a = q + s;
    let b = a + s;
    [
        [g[q], g[q + 1], g[q + 2]],
        [g[a], g[a + 1], g[a + 2]],
        [g[b], g[b + 1], g[b + 2]],
    ]
}

// The direction sums of every second window from place `at` on.
pub fn sums(g: &[u16], s: usize, at: usize, out: &mut [u32])
    requires { at + 2 * length out.old + 2 * s < length g.now }
    ensures { out.new ≡ table (λ k. direction_sum (window_in s g.now (at + 2 * k))) (length out.old) }
{
    for (k, value) in out.iter_mut().enumerate() {
        *value = direction_sum(window(g, s, at + 2 * k));
    }
}

// The five-sum of place p of five lists.
fn five_at(weights: [u8; 5], a: &[i16], b: &[i16], c: &[i16], d: &[i16], e: &[i16], p: usize) -> i32
    requires { (p < length a.now) × (p < length b.now) × (p < length c.now) × (p < length d.now) × (p < length e.now) }
    ensures { result ≡ five_sum weights (alternating (across a.now b.now c.now d.now e.now p)) }
{
    five_sum(weights, [a[p], b[p], c[p], d[p], e[p]])
}

// The five-sums of every second place of five lists, from the first on.
fn fives_across(
    weights: [u8; 5],
    a: &[i16],
    b: &[i16],
    c: &[i16],
    d: &[i16],
    e: &[i16],
    out: &mut [i32],
)
    requires { (2 * length out.old ≤ length a.now + 1)
        × (2 * length out.old ≤ length b.now + 1)
        × (2 * length out.old ≤ length c.now + 1)
        × (2 * length out.old ≤ length d.now + 1)
        × (2 * length out.old ≤ length e.now + 1) }
    ensures { out.new ≡ table (λ k. five_sum weights (alternating (across a.now b.now c.now d.now e.now (2 * k)))) (length out.old) }
{
    for (k, value) in out.iter_mut().enumerate() {
        *value = five_at(weights, a, b, c, d, e, 2 * k);
    }
}

// The five-sums of every second place of d from place `at` on, each of places `step` apart. Five lists that start where the first sum reads them
// leave the loop one number to step by.
pub fn fives(weights: [u8; 5], d: &[i16], step: usize, at: usize, out: &mut [i32])
    requires { at + 2 * length out.old + 4 * step ≤ length d.now }
    ensures { out.new ≡ table (λ k. five_sum weights (alternating (after step d.now (at + 2 * k)))) (length out.old) }
{
    let second = at + step;
    let third = second + step;
    let fourth = third + step;
    let fifth = fourth + step;
    fives_across(
        weights,
        &d[at..],
        &d[second..],
        &d[third..],
        &d[fourth..],
        &d[fifth..],
        out,
    );
}
