// Views. The number, the plane, the start and the length are what C is told, the arguments by their places in
// include/rokzimp.h; the checksum is of what the view of crate bayer shows, of a frame whose smoothing is unknown: no view tests it.
use crate::frame::Frame;
use crate::numbers::Numbers;
use crate::planes::{MOST_PLANE, lent};
use crate::recipe::count;
use crate::summary::checksum;
use bayer::view::{partner_view, row_view};
use capi::views::{
    rokzimp_partner_view_check, rokzimp_partner_view_length, rokzimp_partner_view_plane,
    rokzimp_partner_view_start, rokzimp_row_view_check, rokzimp_row_view_length,
    rokzimp_row_view_start,
};
use std::io;

#[derive(Drop)]
pub struct RowViewCase {
    width: usize,
    row: usize,
    length: usize,
}

impl RowViewCase {
    pub fn read(numbers: &mut Numbers) -> Self {
        RowViewCase {
            width: numbers.size(),
            row: numbers.size(),
            length: numbers.size(),
        }
    }

    pub fn run(&self, rt: &impl Print) -> io::Result<()> {
        let (width, row) = (self.width, self.row);
        let mut room = [0u16; MOST_PLANE];
        let plane = lent(&mut room, self.length);
        count(0, plane);
        let number = rokzimp_row_view_check(plane, width, row);
        let start = rokzimp_row_view_start(plane, width, row);
        let length = rokzimp_row_view_length(plane, width, row);
        let shown = checksum(row_view(plane, width, row));
        println!(rt; "{number} {start} {length} {shown}")
    }
}

// The plane that a partner view shows, or 0 where the view is refused: by the number that C is answered.
fn plane_shown(number: u32, layout: u8, row: usize) -> u32 {
    match number {
        0 => rokzimp_partner_view_plane(layout, row),
        _ => 0,
    }
}

#[derive(Drop)]
pub struct PartnerViewCase {
    frame: Frame,
    row: usize,
    red: usize,
    blue: usize,
}

impl PartnerViewCase {
    pub fn read(numbers: &mut Numbers) -> Self {
        PartnerViewCase {
            frame: Frame::read(numbers),
            row: numbers.size(),
            red: numbers.size(),
            blue: numbers.size(),
        }
    }

    fn answer(&self, rt: &impl Print, red: &[u16], blue: &[u16]) -> io::Result<()> {
        let Frame {
            width,
            height,
            layout,
        } = self.frame;
        let row = self.row;
        let number = rokzimp_partner_view_check(red, blue, width, height, layout, row);
        let start = rokzimp_partner_view_start(red, blue, width, height, layout, row);
        let length = rokzimp_partner_view_length(red, blue, width, height, layout, row);
        let plane = plane_shown(number, layout, row);
        let frame = bayer::frame::Frame::smoothed(width, height, layout, 255);
        let shown = checksum(partner_view(red, blue, frame, row));
        println!(rt; "{number} {plane} {start} {length} {shown}")
    }

    pub fn run(&self, rt: &impl Print) -> io::Result<()> {
        let mut red = [0u16; 32768];
        let mut blue = [0u16; 32768];
        let red = lent(&mut red, self.red);
        let blue = lent(&mut blue, self.blue);
        count(0, red);
        count(32768, blue);
        self.answer(rt, red, blue)
    }
}
