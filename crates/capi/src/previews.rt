ghost use Rattle.std.specs.Prelude.{◌≡◌};
ghost use Rattle.bayer.specs.Frame.{frame, smoothed};
ghost use Rattle.bayer.specs.Planes.{three_planes};
ghost use Rattle.strip.specs.Strip.{asked, strip_number, Promise};
ghost use Rattle.strip.specs.declared.entry.Entry.TheVariants.{Preview};

use bayer::frame::Frame;
use bayer::refusal::answer_number;
use strip::check::strip_check;
use strip::entry::Entry;
use strip::preview::preview;

// The number of a preview call that names no smoothing, and is lent planes of these lengths: 0, or its refusal.
pub fn rokzimp_preview_check(
    width: usize,
    height: usize,
    layout: u8,
    a: usize,
    n: usize,
    piece: &[u16],
    red: usize,
    green: usize,
    blue: usize,
) -> u32
    ensures { result ≡ strip_number (asked Preview (frame width height layout) a n piece.now) red green blue }
{
    let frame = Frame::new(width, height, layout);
    answer_number(strip_check(Entry::Preview, frame, a, n, piece, red, green, blue))
}

// Rows a to a + n - 1 of the three planes, at most 64 of at most 1024 columns, with no smoothing named.
pub fn rokzimp_preview(
    width: usize,
    height: usize,
    layout: u8,
    a: usize,
    n: usize,
    piece: &[u16],
    red: &mut [u16],
    green: &mut [u16],
    blue: &mut [u16],
) -> u32
    ensures { Promise (asked Preview (frame width height layout) a n piece.now)
        (three_planes red.old green.old blue.old) result
        (three_planes red.new green.new blue.new) }
{
    let frame = Frame::new(width, height, layout);
    answer_number(preview(frame, a, n, piece, red, green, blue))
}

// The same, with a smoothing that is named.
pub fn rokzimp_preview_smoothed_check(
    width: usize,
    height: usize,
    layout: u8,
    smoothing: u8,
    a: usize,
    n: usize,
    piece: &[u16],
    red: usize,
    green: usize,
    blue: usize,
) -> u32
    ensures { result ≡ strip_number (asked Preview (smoothed width height layout smoothing) a n piece.now) red green blue }
{
    let named = Frame::smoothed(width, height, layout, smoothing);
    answer_number(strip_check(Entry::Preview, named, a, n, piece, red, green, blue))
}

pub fn rokzimp_preview_smoothed(
    width: usize,
    height: usize,
    layout: u8,
    smoothing: u8,
    a: usize,
    n: usize,
    piece: &[u16],
    red: &mut [u16],
    green: &mut [u16],
    blue: &mut [u16],
) -> u32
    ensures { Promise (asked Preview (smoothed width height layout smoothing) a n piece.now)
        (three_planes red.old green.old blue.old) result
        (three_planes red.new green.new blue.new) }
{
    let named = Frame::smoothed(width, height, layout, smoothing);
    answer_number(preview(named, a, n, piece, red, green, blue))
}
