// The rows of the mosaic that a strip is lent: the first, and how many.
use crate::frame::Rows;
use crate::numbers::Numbers;
use capi::pieces::{rokzimp_piece_rows, rokzimp_piece_start};
use std::io;

#[derive(Drop)]
pub struct PieceCase {
    height: usize,
    rows: Rows,
}

impl PieceCase {
    pub fn read(numbers: &mut Numbers) -> Self {
        PieceCase {
            height: numbers.size(),
            rows: Rows::read(numbers),
        }
    }

    pub fn run(&self, rt: &impl Print) -> io::Result<()> {
        let start = rokzimp_piece_start(self.rows.first);
        let rows = rokzimp_piece_rows(self.height, self.rows.first, self.rows.count);
        println!(rt; "{start} {rows}")
    }
}
