ghost use Rattle.std.specs.Prelude.{◌≡◌, ◌+◌, ◌*◌, length};
ghost use Rattle.lists.specs.Table.{joined};
ghost use Rattle.lists.specs.Bound.{AllAtMost};
ghost use Rattle.bayer.specs.Parity.{starts_green};
ghost use Rattle.bayer.specs.declared.colour.Colour.TheVariants.{Red, Blue};
ghost use Rattle.demosaic.specs.Sample.{plane_rows};
ghost use Rattle.fill_rows.specs.HalfFill.{places};
ghost use Rattle.fill_rows.specs.HalfRoom.{HalfRowsFor};
ghost use Rattle.strip_rows.specs.StripRows.{colour_row, Readable, GreensOf, among_greens, ColourSizes, ColourRoomFor, Block, colour_edged, block_differences};

use bayer::colour::{Colour, partner};
use bayer::frame::Frame;
use bayer::lent::Piece;
use bayer::mirror::mirror;
use bayer::parity::starts_green;
use fill_rows::edge::edged;
use fill_rows::row::{Differences, HalfRows, Row};
use fill_rows::rows::{other_row, own_row};
use green_blocks::blocks::block_size;
use std::marker::Model;

// Rows first to first + rows - 1 of a frame: the piece of the mosaic that is lent for them, and the greens of these rows and of those above and below them.
#[derive(Clone, Copy)]
pub struct Strip<'a> {
    pub piece: Piece<'a>,
    pub first: usize,
    pub rows: usize,
    pub green: &'a [u16],
    pub above: &'a [u16],
    pub below: &'a [u16],
    pub ghost readable: { Readable piece.frame piece.start piece.readings.now first rows },
    pub ghost greens: { GreensOf piece.frame piece.start piece.readings.now first rows green.now above.now below.now },
}

impl<'a> Strip<'a> {
    // Row v of the greens.
    fn greens(&self, v: usize) -> &'a [u16]
        ensures { result.now ≡ among_greens self.now.piece.frame.width self.now.first self.now.rows self.now.green.now self.now.above.now self.now.below.now v }
    {
        let w = self.piece.frame.width;
        if v < self.first {
            return self.above;
        }
        if v < self.first + self.rows {
            let at = (v - self.first) * w;
            let end = at + w;
            return &self.green[at..end];
        }
        self.below
    }
}

// One to eight rows of a strip.
#[derive(Clone, Copy)]
struct Block<'a> {
    strip: Strip<'a>,
    first: usize,
    rows: usize,
    ghost within: { Block strip.first strip.rows first rows },
}

// The colour differences of a row, and of the rows that are read above and below it.
#[derive(Clone, Copy)]
struct Nearby<'a> {
    above: Differences<'a>,
    own: Differences<'a>,
    below: Differences<'a>,
}

// Room for red and blue of a block of rows: the lists of colour differences of up to eight rows and of those above and below them, and two half rows. In contracts
// it is their lengths; what it held before does not matter, and what it holds afterwards is not promised.
#[derive(Drop)]
pub struct ColourRoom<'a> {
    pub differences: &'a mut [i32],
    pub halves: HalfRows<'a>,
}

impl<'a> Model for ColourRoom<'a> {
    ghost Value = { ColourSizes };

    ghost view = { λ r. record { differences = length r.differences.now; halves = r.halves } };
}

// Row v of colour k, red or blue.
// Seven parameters: the colour and the row vary from call to call, and a struct of them would be made for one call alone: no plainer.
fn colour_row(
    frame: Frame,
    k: Colour,
    v: usize,
    row: &Row<'_>,
    nearby: &Nearby<'_>,
    room: &mut HalfRows<'_>,
    out: &mut [u16],
)
    requires row { (length row.now.readings.now ≡ frame.width) × (row.now.side ≡ starts_green frame.layout v) }
    requires range { AllAtMost 4095 row.now.readings.now }
    requires nearby { (nearby.now.above.width ≡ frame.width) × (nearby.now.own.width ≡ frame.width) × (nearby.now.below.width ≡ frame.width) }
    requires out_len { length out.old ≡ frame.width }
    requires room { HalfRowsFor frame.width room.old }
    ensures value { out.new ≡ colour_edged frame k v row.now.readings.now row.now.greens.now nearby.now.above.list.now nearby.now.own.list.now nearby.now.below.list.now }
    ensures room { room.new ≡ room.old }
{
    if k == partner(frame.layout, v) {
        own_row(row, &nearby.own, room, out);
    } else {
        other_row(
            row.side,
            row.greens,
            &nearby.above,
            &nearby.below,
            room,
            out,
        );
    }
}

// Red and blue of a block, from the lists of colour differences of its rows and of two more: the first is of the row that is read above the block.
fn colour_rows(
    block: &Block<'_>,
    lists: &[i32],
    room: &mut HalfRows<'_>,
    red: &mut [u16],
    blue: &mut [u16],
)
    requires lists { lists.now ≡ joined (block_differences block.now.strip.piece.frame block.now.strip.piece.start block.now.strip.piece.readings.now block.now.first) (block.now.rows + 2) }
    requires room { HalfRowsFor block.now.strip.piece.frame.width room.old }
    requires planes { (length red.old ≡ block.now.rows * block.now.strip.piece.frame.width) × (length blue.old ≡ block.now.rows * block.now.strip.piece.frame.width) }
    ensures red_after { red.new ≡ joined (λ i. colour_row block.now.strip.piece.frame block.now.strip.piece.start block.now.strip.piece.readings.now Red (block.now.first + i)) block.now.rows }
    ensures blue_after { blue.new ≡ joined (λ i. colour_row block.now.strip.piece.frame block.now.strip.piece.start block.now.strip.piece.readings.now Blue (block.now.first + i)) block.now.rows }
    ensures room { room.new ≡ room.old }
{
    let piece = block.strip.piece;
    let frame = piece.frame;
    let w = frame.width;
    let s = (w + 1) / 2 + 2;
    for i in 0..block.rows {
        let v = block.first + i;
        let row = Row {
            side: starts_green(frame.layout, v),
            readings: piece.row(v),
            greens: block.strip.greens(v),
        };
        let o = i * s;
        let o1 = o + s;
        let o2 = o1 + s;
        let o3 = o2 + s;
        let above = Differences {
            width: w,
            list: &lists[o..o1],
        };
        let own = Differences {
            width: w,
            list: &lists[o1..o2],
        };
        let below = Differences {
            width: w,
            list: &lists[o2..o3],
        };
        let nearby = Nearby { above, own, below };
        let at = i * w;
        let end = at + w;
        let reds = &mut red[at..end];
        colour_row(frame, Colour::Red, v, &row, &nearby, room, reds);
        let blues = &mut blue[at..end];
        colour_row(frame, Colour::Blue, v, &row, &nearby, room, blues);
    }
}

// The colour differences of the rows that a block's rows read: from the one above them to the one below them, by the mirrors at the frame's edges.
fn block_differences(block: &Block<'_>, lists: &mut [i32])
    requires { length lists.old ≡ (block.now.rows + 2) * places block.now.strip.piece.frame.width }
    ensures { lists.new ≡ joined (block_differences block.now.strip.piece.frame block.now.strip.piece.start block.now.strip.piece.readings.now block.now.first) (block.now.rows + 2) }
{
    let piece = block.strip.piece;
    let frame = piece.frame;
    let s = (frame.width + 1) / 2 + 2;
    for i in 0..block.rows + 2 {
        let y = mirror(frame.height, block.first + i, 1);
        let row = Row {
            side: starts_green(frame.layout, y),
            readings: piece.row(y),
            greens: block.strip.greens(y),
        };
        let at = i * s;
        let end = at + s;
        edged(&row, &mut lists[at..end]);
    }
}

// Red and blue of a block, in as much of the room as its lists of colour differences need: each is made once.
fn colour_block(block: &Block<'_>, room: &mut ColourRoom<'_>, red: &mut [u16], blue: &mut [u16])
    requires room { ColourRoomFor block.now.strip.piece.frame.width room.old }
    requires planes { (length red.old ≡ block.now.rows * block.now.strip.piece.frame.width) × (length blue.old ≡ block.now.rows * block.now.strip.piece.frame.width) }
    ensures red_after { red.new ≡ joined (λ i. colour_row block.now.strip.piece.frame block.now.strip.piece.start block.now.strip.piece.readings.now Red (block.now.first + i)) block.now.rows }
    ensures blue_after { blue.new ≡ joined (λ i. colour_row block.now.strip.piece.frame block.now.strip.piece.start block.now.strip.piece.readings.now Blue (block.now.first + i)) block.now.rows }
    ensures room { room.new ≡ room.old }
{
    let end = (block.rows + 2) * ((block.strip.piece.frame.width + 1) / 2 + 2);
    let lists = &mut room.differences[0..end];
    block_differences(block, lists);
    colour_rows(block, lists, &mut room.halves, red, blue);
}

// The red and the blue plane of a strip, block after block.
pub fn colour_planes(
    strip: &Strip<'_>,
    room: &mut ColourRoom<'_>,
    red: &mut [u16],
    blue: &mut [u16],
)
    requires room { ColourRoomFor strip.now.piece.frame.width room.old }
    requires planes { (length red.old ≡ strip.now.rows * strip.now.piece.frame.width) × (length blue.old ≡ strip.now.rows * strip.now.piece.frame.width) }
    ensures red_after { red.new ≡ plane_rows strip.now.piece.frame strip.now.piece.start strip.now.piece.readings.now strip.now.first strip.now.rows Red }
    ensures blue_after { blue.new ≡ plane_rows strip.now.piece.frame strip.now.piece.start strip.now.piece.readings.now strip.now.first strip.now.rows Blue }
    ensures room { room.new ≡ room.old }
{
    let w = strip.piece.frame.width;
    for k in 0..strip.rows.div_ceil(8) {
        let i = 8 * k;
        let b = block_size(strip.rows - i);
        let block = Block {
            strip: *strip,
            first: strip.first + i,
            rows: b,
        };
        let at = i * w;
        let end = at + b * w;
        let reds = &mut red[at..end];
        let blues = &mut blue[at..end];
        colour_block(&block, room, reds, blues);
    }
}
