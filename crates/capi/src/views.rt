ghost use Rattle.std.specs.Prelude.{◌≡◌, ◌*◌, length};
ghost use Rattle.lists.specs.Part.{row_of};
ghost use Rattle.bayer.specs.Colour.{partner};
ghost use Rattle.bayer.specs.Frame.{frame};
ghost use Rattle.bayer.specs.View.{row_view_number, partner_view_number, shown, shown_from};
ghost use Rattle.bayer.specs.Planes.{plane_of};
ghost use Rattle.capi.specs.Call.{plane_number};

use bayer::colour::{Colour, partner};
use bayer::frame::Frame;
use bayer::refusal::answer_number;
use bayer::view::{partner_view, partner_view_check, row_view, row_view_check};

// The number of a row view: 0, or its refusal.
pub fn rokzimp_row_view_check(plane: &[u16], width: usize, row: usize) -> u32
    ensures { result ≡ row_view_number (length plane.now) width row }
{
    answer_number(row_view_check(plane, width, row))
}

// Where the row starts in the plane; 0 where the view is refused.
#[tactic(auto, using(bayer::proofs::RefusalLaws::number_positive, bayer::proofs::ViewLaws::row_in), unfolding(bayer::specs::View::shown_from))]
pub fn rokzimp_row_view_start(plane: &[u16], width: usize, row: usize) -> usize
    ensures { result ≡ shown_from (row_view_number (length plane.now) width row) (row * width) }
{
    match row_view_check(plane, width, row) {
        Ok(()) => row * width,
        Err(_) => 0,
    }
}

// How long the view is; 0 where it is refused.
pub fn rokzimp_row_view_length(plane: &[u16], width: usize, row: usize) -> usize
    ensures { result ≡ length (shown (row_view_number (length plane.now) width row) (row_of width row plane.now)) }
{
    row_view(plane, width, row).len()
}

// The number of a partner view: 0, or its refusal.
pub fn rokzimp_partner_view_check(
    red: &[u16],
    blue: &[u16],
    width: usize,
    height: usize,
    layout: u8,
    row: usize,
) -> u32
    ensures { result ≡ partner_view_number (length red.now) (length blue.now) (frame width height layout) row }
{
    answer_number(partner_view_check(red, blue, Frame::new(width, height, layout), row))
}

// The plane that a partner view shows: 0 for red, 2 for blue.
pub fn rokzimp_partner_view_plane(layout: u8, row: usize) -> u32
    ensures { result ≡ plane_number (partner layout row) }
{
    match partner(layout, row) {
        Colour::Red => 0,
        Colour::Green => 1,
        Colour::Blue => 2,
    }
}

// Where the row starts in that plane; 0 where the view is refused.
#[tactic(auto, using(bayer::proofs::RefusalLaws::number_positive, bayer::proofs::ViewLaws::partner_in), unfolding(bayer::specs::View::shown_from))]
pub fn rokzimp_partner_view_start(
    red: &[u16],
    blue: &[u16],
    width: usize,
    height: usize,
    layout: u8,
    row: usize,
) -> usize
    ensures { result ≡ shown_from (partner_view_number (length red.now) (length blue.now) (frame width height layout) row) (row * width) }
{
    match partner_view_check(red, blue, Frame::new(width, height, layout), row) {
        Ok(()) => row * width,
        Err(_) => 0,
    }
}

// How long the view is; 0 where it is refused.
pub fn rokzimp_partner_view_length<'a>(
    red: &'a [u16],
    blue: &'a [u16],
    width: usize,
    height: usize,
    layout: u8,
    row: usize,
) -> usize
    ensures { result ≡ length (shown (partner_view_number (length red.now) (length blue.now) (frame width height layout) row)
        (row_of width row (plane_of (partner layout row) red.now blue.now))) }
{
    partner_view(red, blue, Frame::new(width, height, layout), row).len()
}
