// The even and the odd columns of a row of readings, each in a half row, with a column more at each side by the mirrors.
ghost use Rattle.std.specs.Prelude.{◌≡◌, ◌+◌, ◌*◌, ◌≤◌, length, get_or};
ghost use Rattle.lists.specs.Table.{table};
ghost use Rattle.half_rows.specs.HalfRow.{places, half_column};

use bayer::mirror::mirror;

// From place `from` on, by the mirrors.
// Fills two half rows at once, the `edge` of `green_row::extend` one row: one function for both would be no plainer.
fn edge(row: &[u16], from: usize, e: &mut [u16], o: &mut [u16])
    requires { (2 ≤ length row.now) × (length row.now ≤ 4096) × (from + length e.old ≤ 4096) × (length o.old ≡ length e.old) }
    ensures { (e.new ≡ table (λ k. half_column 0 row.now (from + k)) (length e.old))
        × (o.new ≡ table (λ k. half_column 1 row.now (from + k)) (length o.old)) }
{
    for k in 0..e.len() {
        let p = mirror(row.len(), 2 * (from + k), 2);
        let q = mirror(row.len(), 2 * (from + k) + 1, 2);
        e[k] = row[p];
        o[k] = row[q];
    }
}

// Where no mirror is needed.
fn split(row: &[u16], e: &mut [u16], o: &mut [u16])
    requires { (2 * length e.old ≤ length row.now) × (length o.old ≡ length e.old) }
    ensures { (e.new ≡ table (λ k. get_or row.now (2 * k) 0) (length e.old))
        × (o.new ≡ table (λ k. get_or row.now (2 * k + 1) 0) (length o.old)) }
{
    for k in 0..e.len() {
        e[k] = row[2 * k];
        o[k] = row[2 * k + 1];
    }
}

pub fn halves(row: &[u16], e: &mut [u16], o: &mut [u16])
    requires { (2 ≤ length row.now) × (length row.now ≤ 4096) × (length e.old ≡ places (length row.now)) × (length o.old ≡ places (length row.now)) }
    ensures { (e.new ≡ table (half_column 0 row.now) (places (length row.now)))
        × (o.new ≡ table (half_column 1 row.now) (places (length row.now))) }
{
    let end = row.len() / 2 + 1;
    edge(row, 0, &mut e[0..1], &mut o[0..1]);
    split(row, &mut e[1..end], &mut o[1..end]);
    edge(row, end, &mut e[end..], &mut o[end..]);
}
