ghost use Rattle.std.specs.Prelude.{◌≡◌};
ghost use Rattle.bayer.specs.Frame.{frame};
ghost use Rattle.bayer.specs.Planes.{three_planes};
ghost use Rattle.remosaic.specs.MosaicBack.{mosaic_number, MosaicPromise};

use bayer::frame::Frame;
use bayer::refusal::answer_number;
use remosaic::back::mosaic_back;
use remosaic::check::mosaic_back_check;

// The number of a call that gives the mosaic back into one of this length: 0, or its refusal.
pub fn rokzimp_mosaic_back_check<'a>(
    width: usize,
    height: usize,
    layout: u8,
    a: usize,
    n: usize,
    red: &'a [u16],
    green: &'a [u16],
    blue: &'a [u16],
    mosaic: usize,
) -> u32
    ensures { result ≡ mosaic_number (frame width height layout) a n (three_planes red.now green.now blue.now) mosaic }
{
    let frame = Frame::new(width, height, layout);
    answer_number(mosaic_back_check(frame, a, n, red, green, blue, mosaic))
}

// The readings of rows a to a + n - 1, from the three planes of these rows.
pub fn rokzimp_mosaic_back<'a>(
    width: usize,
    height: usize,
    layout: u8,
    a: usize,
    n: usize,
    red: &'a [u16],
    green: &'a [u16],
    blue: &'a [u16],
    mosaic: &mut [u16],
) -> u32
    ensures { MosaicPromise (frame width height layout) a n (three_planes red.now green.now blue.now) mosaic.old result mosaic.new }
{
    let frame = Frame::new(width, height, layout);
    answer_number(mosaic_back(frame, a, n, red, green, blue, mosaic))
}
