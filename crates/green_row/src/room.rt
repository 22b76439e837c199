// What green of a row is worked out from, and the room that it is worked out in.
ghost use Rattle.green_row.specs.Buffers.{InRange};

use std::marker::Model;

// The buffers around the rows that green is worked out for, whose rows are `stride` places wide, as green_blocks/specs/Block draws them: differences along rows and
// along columns, gradients along rows, and direction sums along columns.
#[derive(Clone, Copy)]
pub struct Buffers<'a> {
    pub stride: usize,
    pub dh: &'a [i16],
    pub dv: &'a [i16],
    pub gh: &'a [u16],
    pub tv: &'a [u32],
    pub ghost in_range: { InRange dh.now dv.now gh.now tv.now },
}

// Room for direction sums, five-sums, what fusion adds and two half rows. A contract sees it as the number of columns that a row may have in it and as how long each
// part is: what it held before does not matter, and what it holds afterwards is not promised.
#[derive(Drop)]
pub struct RowRoom<'a> {
    pub columns: usize,
    pub sums: &'a mut [u32],
    pub fives: &'a mut [i32],
    pub added: &'a mut [i32],
    pub half: &'a mut [u16],
    pub other_half: &'a mut [u16],
}

impl<'a> Model for RowRoom<'a> {
    ghost use Rattle.std.specs.Prelude.{length};
    ghost use Rattle.green_row.specs.Buffers.{RowRoomFor, RowSizes};

    ghost Value = { RowSizes };

    ghost view = { λ r. record { columns = r.columns; sums = length r.sums.now; fives = length r.fives.now; added = length r.added.now; half = length r.half.now; other_half = length r.other_half.now } };

    ghost invariant = { λ r. RowRoomFor r.columns (length r.sums.now) (length r.fives.now) (length r.added.now) (length r.half.now) (length r.other_half.now) };
}
