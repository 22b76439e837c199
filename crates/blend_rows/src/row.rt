// Green of a row.
ghost use Rattle.std.specs.Prelude.{◌≡◌, ◌*◌, ◌≤◌, ◌<◌, length, get_or};
ghost use Rattle.lists.specs.Table.{table};
ghost use Rattle.lists.specs.Bound.{AllAtMost};
ghost use Rattle.half_rows.specs.HalfRow.{places};
ghost use Rattle.blend_rows.specs.BlendIn.{blend_row_in, row_from};
ghost use Rattle.blend_rows.specs.Workspace.{RoomFor, SameSizes};

use crate::around::Around;
use crate::half::half_greens;
use crate::workspace::Workspace;

// 16 times each reading.
// `half_rows::observed` takes every second reading. One function would take the step, and its clauses would say k * step: no plainer.
fn scaled(x: &[u16], out: &mut [u16])
    requires { (length out.old ≤ length x.now) × (AllAtMost 4095 x.now) }
    ensures { out.new ≡ table (λ k. 16 * get_or x.now k 0) (length out.old) }
{
    for (k, sample) in out.iter_mut().enumerate() {
        *sample = 16 * x[k];
    }
}

// From the half rows around its red and blue pixels.
fn blend_row(around: Around, room: &mut Workspace, out: &mut [u16])
    requires width { (around.places ≡ places (length out.old)) × (0 < length out.old) × (length out.old ≤ 4096) }
    requires room { RoomFor (length out.old) room.old }
    ensures value { out.new ≡ blend_row_in (length out.old) around.entry.places around.entry.side around.entry.own.now around.entry.beside.now }
    ensures room_kept { SameSizes room.old room.new }
{
    let w = out.len();
    let n = (w + 1 - around.side) / 2;
    let m = w - n;
    let two = 2 * n;
    half_greens(
        around,
        &mut room.variations[0..two],
        &mut room.estimates[0..two],
        &mut room.half[0..n],
        &mut room.other_half[0..n],
    );
    scaled(&around.beside[1..], &mut room.other_half[0..m]);
    room.interleaved(around.side, n, out);
}

// The same, from five half rows of the even columns and five of the odd ones.
pub fn blend_row_from(
    e: &[u16],
    o: &[u16],
    h: usize,
    side: usize,
    room: &mut Workspace,
    out: &mut [u16],
)
    requires side { side < 2 }
    requires half_rows { (h ≡ places (length out.old)) × (length e.now ≡ 5 * h) × (length o.now ≡ 5 * h) }
    requires readings { (AllAtMost 4095 e.now) × (AllAtMost 4095 o.now) }
    requires width { (0 < length out.old) × (length out.old ≤ 4096) }
    requires room { RoomFor (length out.old) room.old }
    ensures value { out.new ≡ row_from (length out.old) h side e.now o.now }
    ensures room_kept { SameSizes room.old room.new }
{
    let at = 2 * h;
    let end = at + h;
    if side == 0 {
        let around = Around {
            own: e,
            beside: &o[at..end],
            places: h,
            side,
        };
        blend_row(around, room, out);
    } else {
        let around = Around {
            own: o,
            beside: &e[at..end],
            places: h,
            side,
        };
        blend_row(around, room, out);
    }
}
