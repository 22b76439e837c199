#![tactic(auto, using(bayer::proofs::RefusalLaws::number_positive), unfolding(crate::specs::MosaicBack::mosaic_number, bayer::specs::Refusal::first_of))]

ghost use Rattle.std.specs.Prelude.{◌≡◌, length};
ghost use Rattle.lists.specs.Any.{any};
ghost use Rattle.lists.specs.Table.{table};
ghost use Rattle.bayer.specs.Planes.{three_planes};
ghost use Rattle.bayer.specs.Refusal.{answer_number};
ghost use Rattle.remosaic.specs.MosaicBack.{observed_rows, not_of_camera, mosaic_number};
ghost use Rattle.remosaic.specs.Rows.{observed_in};

use crate::rows::{PlaneRow, PlaneRows};
use bayer::check::{planes_misfit, rows_check};
use bayer::frame::Frame;
use bayer::refusal::Refusal;

// Whether no reading gives this sample.
fn not_of_camera(sample: u16) -> bool
    ensures { result ≡ not_of_camera sample }
{
    sample % 16 != 0 || 65520 < sample
}

// Whether no reading gives some observed sample of a row. The loop goes to the end of the row, so that the compiler handles several columns at a time.
fn row_not_of_camera(row: &PlaneRow<'_>) -> bool
    ensures { result ≡ any not_of_camera (table (observed_in row.now.odd row.now.green.now row.now.other.now) (length row.now.green.now)) }
{
    let mut found = false;
    for j in 0..row.green.len() {
        found |= not_of_camera(row.sample(j));
    }
    found
}

// Refusal 9: whether no reading gives some observed sample. A loop: with `any` over the rows the proof did not close.
fn rows_not_of_camera(planes: &PlaneRows<'_>) -> bool
    ensures { result ≡ any not_of_camera (observed_rows planes.now.frame planes.now.a planes.now.n (three_planes planes.now.red.now planes.now.green.now planes.now.blue.now)) }
{
    for i in 0..planes.n {
        if row_not_of_camera(&planes.row(i)) {
            return true;
        }
    }
    false
}

// Whether a call is refused that is lent a mosaic of this length. 9 comes last: it reads the planes, whose lengths 5 has tested. Nothing is written. The planes
// come one by one, as C lends them.
pub fn mosaic_back_check<'a>(
    frame: Frame,
    a: usize,
    n: usize,
    red: &'a [u16],
    green: &'a [u16],
    blue: &'a [u16],
    mosaic: usize,
) -> Result<(), Refusal>
    ensures { answer_number result ≡ mosaic_number frame a n (three_planes red.now green.now blue.now) mosaic }
{
    rows_check(frame, a, n)?;
    let size = n * frame.width;
    if planes_misfit(size, red.len(), green.len(), blue.len()) || mosaic != size {
        return Err(Refusal::WrongPlaneLength);
    }
    let planes = PlaneRows {
        frame,
        a,
        n,
        red,
        green,
        blue,
    };
    if rows_not_of_camera(&planes) {
        return Err(Refusal::NotCameraPlanes);
    }
    Ok(())
}
