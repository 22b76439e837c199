// The numbers of a line.
ghost use Rattle.std.specs.Prelude.{◌<◌};

use std::slice::Iter;

// As many numbers as a line has at the most.
const MOST: usize = 63;

// A tenth of 2^64, rounded up.
const TENTH: usize = 1844674407370955162;

// The number x with a digit more; or x, where the byte is no digit. Past 64 bits it wraps.
fn extended(x: usize, byte: u8) -> usize {
    match byte {
        b'0'..=b'9' => (x % TENTH * 10).wrapping_add(usize::from(byte - b'0')),
        _ => x,
    }
}

// The numbers of a line, each of which begins after a space; those that the line has not are 0. The digits of a number too many go on the first, and so forth.
pub fn numbers_of(line: &[u8]) -> [usize; MOST] {
    let mut numbers = [0; MOST];
    for (place, digits) in line.split(|byte| *byte == b' ').skip(1).enumerate() {
        let number = numbers[place % MOST];
        numbers[place % MOST] = digits.iter().fold(number, |x, digit| extended(x, *digit));
    }
    numbers
}

// Numbers, read one after the other; after the last one 0s.
#[derive(Drop)]
pub struct Numbers<'a>(pub Iter<'a, usize>);

impl Numbers<'_> {
    // A number as it is.
    pub fn size(&mut self) -> usize {
        self.0.next().copied().unwrap_or(0)
    }

    // A state of the generator: the number modulo 2^32.
    pub fn state(&mut self) -> u32 {
        (self.size() % 0x1_0000_0000) as u32
    }

    // A number of a recipe: modulo 2^16.
    pub fn sample(&mut self) -> u16 {
        (self.size() % 0x1_0000) as u16
    }

    // A layout or a smoothing: the number modulo 2^8.
    pub fn byte(&mut self) -> u8 {
        (self.size() % 0x100) as u8
    }
}
