// What a call names: a frame, and rows of it.
use crate::numbers::Numbers;

#[derive(Clone, Copy)]
pub struct Frame {
    pub width: usize,
    pub height: usize,
    pub layout: u8,
}

impl Frame {
    pub fn read(numbers: &mut Numbers) -> Self {
        Frame {
            width: numbers.size(),
            height: numbers.size(),
            layout: numbers.byte(),
        }
    }
}

#[derive(Clone, Copy)]
pub struct Rows {
    pub first: usize,
    pub count: usize,
}

impl Rows {
    pub fn read(numbers: &mut Numbers) -> Self {
        Rows {
            first: numbers.size(),
            count: numbers.size(),
        }
    }
}
