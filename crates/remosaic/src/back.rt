ghost use Rattle.std.specs.Prelude.{◌≡◌, ◌*◌, ◌/◌, length};
ghost use Rattle.lists.specs.Table.{table};
ghost use Rattle.bayer.specs.Planes.{three_planes};
ghost use Rattle.bayer.specs.Refusal.{answer_number};
ghost use Rattle.remosaic.specs.MosaicBack.{mosaic_rows, MosaicPromise};
ghost use Rattle.remosaic.specs.Rows.{observed_in};

use crate::check::mosaic_back_check;
use crate::rows::{PlaneRow, PlaneRows};
use bayer::frame::Frame;
use bayer::refusal::Refusal;

// A row of readings, from the row in the planes of its two colours.
fn row_back(row: &PlaneRow<'_>, out: &mut [u16])
    requires { length out.old ≡ length row.now.green.now }
    ensures { out.new ≡ table (λ j. observed_in row.now.odd row.now.green.now row.now.other.now j / 16) (length row.now.green.now) }
{
    for (j, reading) in out.iter_mut().enumerate() {
        *reading = row.sample(j) / 16;
    }
}

// The readings of all the rows.
fn rows_back(planes: &PlaneRows<'_>, mosaic: &mut [u16])
    requires { length mosaic.old ≡ planes.now.n * planes.now.frame.width }
    ensures { mosaic.new ≡ mosaic_rows planes.now.frame planes.now.a planes.now.n (three_planes planes.now.red.now planes.now.green.now planes.now.blue.now) }
{
    let width = planes.frame.width;
    for i in 0..planes.n {
        let at = i * width;
        let end = at + width;
        row_back(&planes.row(i), &mut mosaic[at..end]);
    }
}

// Writes the readings of rows a to a + n - 1 of a frame into the lent mosaic, from the three planes of these rows, n * W samples each. Or it is refused, and
// the mosaic is as it was. The planes come one by one, as C lends them.
#[tactic(auto, using(bayer::proofs::RefusalLaws::refused))]
pub fn mosaic_back<'a>(
    frame: Frame,
    a: usize,
    n: usize,
    red: &'a [u16],
    green: &'a [u16],
    blue: &'a [u16],
    mosaic: &mut [u16],
) -> Result<(), Refusal>
    ensures { MosaicPromise frame a n (three_planes red.now green.now blue.now) mosaic.old (answer_number result) mosaic.new }
{
    mosaic_back_check(frame, a, n, red, green, blue, mosaic.len())?;
    let planes = PlaneRows {
        frame,
        a,
        n,
        red,
        green,
        blue,
    };
    rows_back(&planes, mosaic);
    Ok(())
}
