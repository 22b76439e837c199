// The contents of lent samples, by the recipe that tools/make_cases.py gives.
ghost use Rattle.std.specs.Prelude.{◌<◌, ◌≤◌};

use crate::numbers::Numbers;
use crate::planes::Planes;

// A state of the generator: a number modulo 2^32.
pub fn state_of(x: u64) -> u32 {
    (x % 0x1_0000_0000) as u32
}

// The seed a few numbers on.
pub fn further(seed: u32, steps: u8) -> u32 {
    state_of(u64::from(seed) + u64::from(steps))
}

// The states that follow one, without end.
#[derive(Drop)]
struct Generator {
    state: u32,
}

impl Iterator for Generator {
    type Item = u32;

    fn next(&mut self) -> Option<u32> {
        self.state = state_of(1664525 * u64::from(self.state) + 1013904223);
        Some(self.state)
    }
}

// A number modulo 2^16, as the recipe counts: a conversion that fails would not do.
pub fn low(x: usize) -> u16 {
    (x % 0x1_0000) as u16
}

// A product of two numbers of the recipe. Its bound is for the sums that take it, which do not wrap.
pub fn times(a: u16, b: u16) -> usize
    ensures { result < 4294967296 }
{
    usize::from(a) * usize::from(b)
}

#[derive(Clone, Copy)]
enum Noise {
    Even,
    Coin,
    // Steps in place of noise.
    Steps,
    Rare,
}

impl From<u16> for Noise {
    fn from(kind: u16) -> Self {
        match kind {
            0 => Noise::Even,
            1 => Noise::Coin,
            3 => Noise::Steps,
            _ => Noise::Rare,
        }
    }
}

impl Noise {
    // Its level, which the amount multiplies, at a state of the generator, a row and a column.
    fn level(self, x: u32, row: u16, column: u16) -> u16 {
        match self {
            Noise::Even => (x / 0x10_0000) as u16,
            Noise::Coin => (x / 0x8000_0000) as u16,
            Noise::Steps => (row / 4 + column / 3) % 7,
            Noise::Rare if x < 0x1000_0000 => (x / 0x10_0000 % 4) as u16,
            Noise::Rare => 0,
        }
    }
}

// How a value becomes a reading.
#[derive(Clone, Copy)]
enum Shape {
    Stopped,
    Wrapped,
    Inverted,
}

impl From<u16> for Shape {
    fn from(shape: u16) -> Self {
        match shape {
            0 => Shape::Stopped,
            1 => Shape::Wrapped,
            _ => Shape::Inverted,
        }
    }
}

impl Shape {
    fn reading(self, value: usize) -> u16 {
        match self {
            Shape::Stopped => value.min(4095) as u16,
            Shape::Wrapped => (value % 4096) as u16,
            Shape::Inverted => 4095 - value.min(4095) as u16,
        }
    }
}

// A sample that is set, where there is such a one.
#[derive(Clone, Copy)]
pub struct Put {
    at: usize,
    value: u16,
}

impl Put {
    pub fn read(numbers: &mut Numbers) -> Self {
        Put {
            at: numbers.size(),
            value: numbers.sample(),
        }
    }

    pub fn set(self, samples: &mut [u16]) {
        if let Some(sample) = samples.get_mut(self.at) {
            *sample = self.value;
        }
    }
}

// The recipe of a piece of the mosaic, and of the planes beside it.
#[derive(Drop)]
pub struct Recipe {
    width: usize,
    pub seed: u32,
    base: u16,
    down: u16,
    across: u16,
    odd_row: u16,
    odd_column: u16,
    checker: u16,
    edge: u16,
    step: u16,
    noise: Noise,
    amount: u16,
    shape: Shape,
    puts: [Put; 2],
    first_row: u16,
}

impl Recipe {
    pub fn read(numbers: &mut Numbers) -> Self {
        Recipe {
            width: numbers.size(),
            seed: numbers.state(),
            base: numbers.sample(),
            down: numbers.sample(),
            across: numbers.sample(),
            odd_row: numbers.sample(),
            odd_column: numbers.sample(),
            checker: numbers.sample(),
            edge: numbers.sample(),
            step: numbers.sample(),
            noise: Noise::from(numbers.sample()),
            amount: numbers.sample(),
            shape: Shape::from(numbers.sample()),
            puts: [Put::read(numbers), Put::read(numbers)],
            first_row: numbers.sample(),
        }
    }

    fn noise(&self, x: u32, row: u16, column: u16) -> usize
        ensures { result < 4294967296 }
    {
        let noise = times(self.noise.level(x, row, column), self.amount);
        match self.noise {
            Noise::Even => noise / 4096,
            _ => noise,
        }
    }

    // The reading at a row and a column of the frame.
    fn reading(&self, x: u32, row: u16, column: u16) -> u16 {
        let diagonal = usize::from(row) + usize::from(column);
        let ramp = usize::from(self.base) + times(self.down, row) + times(self.across, column);
        let tiles = times(self.odd_row, row % 2)
            + times(self.odd_column, column % 2)
            + times(self.checker, low(diagonal) % 2);
        let step = if diagonal < usize::from(self.edge) {
            0
        } else {
            usize::from(self.step)
        };
        let value = ramp + tiles + step + self.noise(x, row, column);
        self.shape.reading(value)
    }

    // A piece of the mosaic.
    fn piece(&self, piece: &mut [u16]) {
        let width = self.width.max(1);
        let states = Generator { state: self.seed };
        for ((t, reading), x) in piece.iter_mut().enumerate().zip(states) {
            let row = low(usize::from(low(t / width)) + usize::from(self.first_row));
            *reading = self.reading(x, row, low(t % width));
        }
        for put in self.puts {
            put.set(piece);
        }
    }

    // What the three planes of a strip hold before a call.
    fn planes(&self, planes: &mut Planes) {
        plane(further(self.seed, 1), planes.red);
        plane(further(self.seed, 2), planes.green);
        plane(further(self.seed, 3), planes.blue);
    }

    // What a strip is lent.
    pub fn fill(&self, piece: &mut [u16], planes: &mut Planes) {
        self.piece(piece);
        self.planes(planes);
    }
}

// What a plane holds before a call.
pub fn plane(seed: u32, samples: &mut [u16]) {
    for (sample, x) in samples.iter_mut().zip(Generator { state: seed }) {
        *sample = (x / 0x1_0000) as u16;
    }
}

// The samples of those cells, by the parities of row and column, whose bit is set, rounded down to a multiple of 16.
fn round(width: usize, bits: usize, samples: &mut [u16]) {
    let width = width.max(1);
    for (t, sample) in samples.iter_mut().enumerate() {
        let cell = t / width % 2 * 2 + t % width % 2;
        if (bits >> cell) % 2 == 1 {
            *sample = *sample / 16 * 16;
        }
    }
}

// What a plane holds from which the mosaic is given back.
pub fn camera_plane(seed: u32, width: usize, bits: usize, samples: &mut [u16]) {
    plane(seed, samples);
    round(width, bits, samples);
}

// Samples that count up from a number.
pub fn count(from: u16, samples: &mut [u16]) {
    for (t, sample) in samples.iter_mut().enumerate() {
        *sample = low(usize::from(low(t)) + usize::from(from));
    }
}
