// Rows worked out at every second column.
#![tactic(auto)]

pub mod halves;

ghost use Rattle.std.specs.Prelude.{◌≡◌, ◌+◌, ◌*◌, ◌/◌, ◌≤◌, ◌<◌, length, get_or};
ghost use Rattle.lists.specs.Table.{table};
ghost use Rattle.lists.specs.Bound.{AllAtMost};
ghost use Rattle.half_rows.specs.HalfRow.{pixels, interleaved};

// 16 times every second reading, from the first on.
pub fn observed(x: &[u16], out: &mut [u16])
    requires { (AllAtMost 4095 x.now) × (2 * length out.old ≤ length x.now + 1) }
    ensures { out.new ≡ table (λ k. 16 * get_or x.now (2 * k) 0) (length out.old) }
{
    for (k, sample) in out.iter_mut().enumerate() {
        *sample = 16 * x[2 * k];
    }
}

// e at the even columns, o at the odd ones.
fn join(e: &[u16], o: &[u16], out: &mut [u16])
    requires { (length out.old ≡ length e.now + length o.now) × (length o.now ≡ length out.old / 2) }
    ensures { out.new ≡ table (interleaved 0 e.now o.now) (length out.old) }
{
    let n = out.len() / 2;
    for k in 0..n {
        out[2 * k] = e[k];
        out[2 * k + 1] = o[k];
    }
    if 2 * n < out.len() {
        out[2 * n] = e[n];
    }
}

// p at the columns side, side + 2, .., q at the others.
pub fn interleave(side: usize, p: &[u16], q: &[u16], out: &mut [u16])
    requires { (side < 2) × (length out.old ≡ length p.now + length q.now) × (length p.now ≡ pixels (length out.old) side) }
    ensures { out.new ≡ table (interleaved side p.now q.now) (length out.old) }
{
    if side == 0 {
        join(p, q, out);
    } else {
        join(q, p, out);
    }
}
