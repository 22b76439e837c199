// Test frames, as C calls them: the arguments by their places in include/rokzimp.h.
use crate::numbers::Numbers;
use crate::planes::{MOST_PLANE, lent};
use crate::recipe::plane;
use crate::summary::Summary;
use capi::test_readings::{rokzimp_jump, rokzimp_test_frame, rokzimp_test_row};
use std::io;

#[derive(Drop)]
pub struct JumpCase {
    state: u32,
    steps: usize,
}

impl JumpCase {
    pub fn read(numbers: &mut Numbers) -> Self {
        JumpCase {
            state: numbers.state(),
            steps: numbers.size(),
        }
    }

    pub fn run(&self, rt: &impl Print) -> io::Result<()> {
        let state = rokzimp_jump(self.state, self.steps as u64);
        println!(rt; "{state}")
    }
}

// A whole frame, in one of this length that is lent and holds readings from the seed `held`.
#[derive(Drop)]
pub struct TestFrameCase {
    seed: u32,
    width: usize,
    height: usize,
    length: usize,
    held: u32,
}

impl TestFrameCase {
    pub fn read(numbers: &mut Numbers) -> Self {
        TestFrameCase {
            seed: numbers.state(),
            width: numbers.size(),
            height: numbers.size(),
            length: numbers.size(),
            held: numbers.state(),
        }
    }

    pub fn run(&self, rt: &impl Print) -> io::Result<()> {
        let mut room = [0u16; MOST_PLANE];
        let frame = lent(&mut room, self.length);
        plane(self.held, frame);
        let number = rokzimp_test_frame(self.seed, self.width, self.height, frame);
        let frame = Summary::of(frame);
        println!(rt; "{number} {frame}")
    }
}

// One row of it.
#[derive(Drop)]
pub struct TestRowCase {
    seed: u32,
    width: usize,
    height: usize,
    row: usize,
    length: usize,
    held: u32,
}

impl TestRowCase {
    pub fn read(numbers: &mut Numbers) -> Self {
        TestRowCase {
            seed: numbers.state(),
            width: numbers.size(),
            height: numbers.size(),
            row: numbers.size(),
            length: numbers.size(),
            held: numbers.state(),
        }
    }

    pub fn run(&self, rt: &impl Print) -> io::Result<()> {
        let mut room = [0u16; 4104];
        let row = lent(&mut room, self.length);
        plane(self.held, row);
        let number = rokzimp_test_row(self.seed, self.width, self.height, self.row, row);
        let row = Summary::of(row);
        println!(rt; "{number} {row}")
    }
}
