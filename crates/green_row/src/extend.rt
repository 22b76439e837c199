ghost use Rattle.std.specs.Prelude.{◌≡◌, ◌+◌, ◌≤◌, length};
ghost use Rattle.lists.specs.Table.{table};
ghost use Rattle.green_row.specs.Extended.{column};

use bayer::mirror::mirror;

// Columns from - 7, from - 6, .. of a row, by the mirrors.
fn edge(row: &[u16], from: usize, out: &mut [u16])
    requires { (2 ≤ length row.now) × (length row.now ≤ 4096) × (from + length out.old ≤ length row.now + 14) }
    ensures { out.new ≡ table (λ k. column row.now (from + k)) (length out.old) }
{
    for (k, reading) in out.iter_mut().enumerate() {
        *reading = row[mirror(row.len(), from + k, 7)];
    }
}

// A loop, as the library's `copy_from_slice` would have the archive for C ask for `memmove`.
fn copy(row: &[u16], out: &mut [u16])
    requires { length out.old ≡ length row.now }
    ensures { out.new ≡ row.now }
{
    for (k, reading) in out.iter_mut().enumerate() {
        *reading = row[k];
    }
}

// Columns -7, -6, .. of a row of the continued mosaic.
pub fn extend(row: &[u16], out: &mut [u16])
    requires in_bounds { (2 ≤ length row.now) × (length row.now ≤ 4096) }
    requires out_len { length out.old ≡ length row.now + 14 }
    ensures { out.new ≡ table (column row.now) (length out.old) }
{
    let w = row.len();
    let end = w + 7;
    edge(row, 0, &mut out[0..7]);
    copy(row, &mut out[7..end]);
    edge(row, end, &mut out[end..]);
}
