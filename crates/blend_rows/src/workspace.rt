ghost use Rattle.std.specs.Prelude.{◌≡◌, ◌+◌, ◌-◌, ◌≤◌, ◌<◌, length, take};
ghost use Rattle.lists.specs.Table.{table};
ghost use Rattle.half_rows.specs.HalfRow.{pixels, interleaved};

use half_rows::interleave;

// Room to work out a row in: variations and estimates, along the row and then along the column, and the two half rows of greens.
// What it held before a call does not matter, and what it holds afterwards is not promised.
// Lent by `RoomFor` and kept by `SameSizes`, length by length: columns as its view would say less. No call of a strip takes it yet.
#[derive(Drop)]
pub struct Workspace<'a> {
    pub variations: &'a mut [u16],
    pub estimates: &'a mut [i16],
    pub half: &'a mut [u16],
    pub other_half: &'a mut [u16],
}

impl Workspace<'_> {
    // The row of the two half rows: the first n greens of the half at the columns side, side + 2, .., those of the other half between.
    pub fn interleaved(&self, side: usize, n: usize, out: &mut [u16])
        requires places { (side < 2) × (n ≡ pixels (length out.old) side) }
        requires room { (n ≤ length self.now.half.now) × (length out.old ≤ n + length self.now.other_half.now) }
        ensures { out.new ≡ table (interleaved side (take n self.now.half.now) (take (length out.old - n) self.now.other_half.now)) (length out.old) }
    {
        let m = out.len() - n;
        interleave(side, &self.half[0..n], &self.other_half[0..m], out);
    }
}
