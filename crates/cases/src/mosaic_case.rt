// The mosaic back from planes, as C calls it: the arguments by their places in include/rokzimp.h.
use crate::frame::{Frame, Rows};
use crate::numbers::Numbers;
use crate::planes::{Lengths, MOST_PIECE, MOST_PLANE, Planes, Room, lent};
use crate::recipe::{Put, camera_plane, further, plane};
use crate::strip_case::StripCase;
use crate::summary::Summary;
use bayer::colour::Colour;
use capi::mosaics::{rokzimp_mosaic_back, rokzimp_mosaic_back_check};
use std::io;

// The answer: the number of the call, that of its check, and the mosaic.
fn answer(
    rt: &impl Print,
    frame: Frame,
    rows: Rows,
    planes: &Planes,
    mosaic: &mut [u16],
) -> io::Result<()> {
    let Frame {
        width,
        height,
        layout,
    } = frame;
    let Rows { first, count } = rows;
    let (red, green, blue) = (&*planes.red, &*planes.green, &*planes.blue);
    let length = mosaic.len();
    let checked = rokzimp_mosaic_back_check(
        width, height, layout, first, count, red, green, blue, length,
    );
    let called = rokzimp_mosaic_back(
        width, height, layout, first, count, red, green, blue, mosaic,
    );
    let mosaic = Summary::of(mosaic);
    println!(rt; "{called} {checked} {mosaic}")
}

// A sample that is set in one of the planes: of number 0 red, of 1 green, else blue.
#[derive(Clone, Copy)]
struct PutIn {
    plane: Colour,
    put: Put,
}

impl PutIn {
    fn read(numbers: &mut Numbers) -> Self {
        PutIn {
            plane: match numbers.size() {
                0 => Colour::Red,
                1 => Colour::Green,
                _ => Colour::Blue,
            },
            put: Put::read(numbers),
        }
    }

    fn set(self, planes: &mut Planes) {
        match self.plane {
            Colour::Red => self.put.set(planes.red),
            Colour::Green => self.put.set(planes.green),
            Colour::Blue => self.put.set(planes.blue),
        }
    }
}

// A call on planes by a recipe: bits 0 to 3 of `round` are of red, 4 to 7 of green, 8 to 11 of blue.
#[derive(Drop)]
pub struct MosaicCase {
    frame: Frame,
    rows: Rows,
    planes: Lengths,
    mosaic: usize,
    width: usize,
    seed: u32,
    round: usize,
    puts: [PutIn; 2],
}

impl MosaicCase {
    pub fn read(numbers: &mut Numbers) -> Self {
        MosaicCase {
            frame: Frame::read(numbers),
            rows: Rows::read(numbers),
            planes: Lengths::read(numbers),
            mosaic: numbers.size(),
            width: numbers.size(),
            seed: numbers.state(),
            round: numbers.size(),
            puts: [PutIn::read(numbers), PutIn::read(numbers)],
        }
    }

    // What the planes hold before the call.
    fn fill(&self, planes: &mut Planes) {
        let seed = self.seed;
        let round = self.round;
        camera_plane(further(seed, 1), self.width, round, planes.red);
        camera_plane(further(seed, 2), self.width, round / 16, planes.green);
        camera_plane(further(seed, 3), self.width, round / 256, planes.blue);
        for put in self.puts {
            put.set(planes);
        }
    }

    pub fn run(&self, rt: &impl Print) -> io::Result<()> {
        let mut room = Room::<MOST_PLANE>::new();
        let mut mosaic = [0u16; MOST_PLANE];
        let mut planes = room.lent(self.planes);
        let mosaic = lent(&mut mosaic, self.mosaic);
        self.fill(&mut planes);
        plane(further(self.seed, 4), mosaic);
        answer(rt, self.frame, self.rows, &planes, mosaic)
    }
}

// A strip call, and then the mosaic back, as long as red, from the planes that it has left.
pub fn there_and_back(rt: &impl Print, case: &StripCase) -> io::Result<()> {
    let mut piece = [0u16; MOST_PIECE];
    let mut room = Room::<MOST_PLANE>::new();
    let mut mosaic = [0u16; MOST_PLANE];
    let piece = lent(&mut piece, case.piece);
    let mut planes = room.lent(case.planes);
    let mosaic = lent(&mut mosaic, case.planes.red);
    case.recipe.fill(piece, &mut planes);
    plane(further(case.recipe.seed, 4), mosaic);
    case.call(case.rows, piece, &mut planes);
    answer(rt, case.frame, case.rows, &planes, mosaic)
}
