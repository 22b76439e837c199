use green_row::room::RowRoom;
use std::marker::Model;

// Room for the readings, differences, gradients and direction sums along columns of a block of rows, and for a row. A contract sees it as the number of columns that a
// frame may have and as how long each part is: what it held before does not matter, and what it holds afterwards is not promised.
#[derive(Drop)]
pub struct Room<'a> {
    pub columns: usize,
    pub readings: &'a mut [u16],
    pub differences: &'a mut [i16],
    pub gradients: &'a mut [u16],
    pub column_sums: &'a mut [u32],
    pub row: RowRoom<'a>,
}

impl<'a> Model for Room<'a> {
    ghost use Rattle.std.specs.Prelude.{length};
    ghost use Rattle.green_blocks.specs.Room.{Room as RoomFor, RoomSizes};

    ghost Value = { RoomSizes };

    ghost view = { λ r. record { columns = r.columns; readings = length r.readings.now; differences = length r.differences.now; gradients = length r.gradients.now; column_sums = length r.column_sums.now; row = r.row } };

    ghost invariant = { λ r. RoomFor r.columns (length r.readings.now) (length r.differences.now) (length r.gradients.now) (length r.column_sums.now) r.row.columns };
}
