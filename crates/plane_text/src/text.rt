ghost use Rattle.std.specs.Prelude.{◌≡◌, ◌∷◌, [], ◌++◌, ◌+◌, ◌≤◌, ◌<◌, List, ℕ, length, take};
ghost use Rattle.bayer.specs.Planes.{three_planes};
ghost use Rattle.plane_text.specs.Text.{decimal, spaced, plane_line, lines, refusal_line};
ghost use Rattle.plane_text.specs.Written.{Written};

use crate::statistics::{largest_of, smallest_of, sum_of};
use std::marker::Model;

// What a program prints, in memory of its own: at most three lines of 35 bytes. Its methods append bytes, and are no `fmt::Write`: of a `write!` that gives an
// `Err` nothing is known, and what has room cannot fail. A buffer with its length, and no `Vec` or `ArrayVec`: there is no heap, and nothing new is trusted.
#[derive(Drop)]
pub struct Text {
    bytes: [u8; 105],
    length: usize,
}

impl Model for Text {
    ghost Value = { List ℕ };

    ghost view = { λ t. take t.length t.bytes };

    ghost invariant = { λ t. t.length ≤ 105 };
}

impl Text {
    pub fn new() -> Self
        ensures { result ≡ [] }
    {
        Text {
            bytes: [0; 105],
            length: 0,
        }
    }

    pub fn len(&self) -> usize
        ensures length { result ≡ length self.now }
        ensures upper_bound { length self.now ≤ 105 }
    {
        self.length
    }

    fn push(&mut self, byte: u8)
        requires { length self.old < 105 }
        ensures byte { self.new ≡ self.old ++ byte ∷ [] }
        ensures length { length self.new ≡ length self.old + 1 }
    {
        self.bytes[self.length] = byte;
        self.length += 1;
    }

    fn push_decimal(&mut self, n: u32)
        requires { length self.old + length (decimal n) ≤ 105 }
        ensures digits { self.new ≡ self.old ++ decimal n }
        ensures length { length self.new ≡ length self.old + length (decimal n) }
    {
        if n >= 10 {
            self.push_decimal(n / 10);
        }
        self.push(b'0' + (n % 10) as u8);
    }

    // At most 11 bytes.
    #[tactic(auto, using(crate::proofs::DecimalLaws::decimal_fits), unfolding(crate::specs::Text::spaced))]
    fn push_spaced(&mut self, n: u32)
        requires { length self.old + 11 ≤ 105 }
        ensures spaced { self.new ≡ self.old ++ spaced n }
        ensures bound { length self.new ≤ length self.old + 11 }
    {
        self.push(b' ');
        self.push_decimal(n);
    }

    // At most 35 bytes.
    #[tactic(auto, unfolding(crate::specs::Text::plane_line))]
    pub fn push_plane_line(&mut self, letter: u8, plane: &[u16])
        requires samples { length plane.now ≤ 4096 }
        requires room { length self.old + 35 ≤ 105 }
        ensures line { self.new ≡ self.old ++ plane_line letter plane.now }
        ensures bound { length self.new ≤ length self.old + 35 }
    {
        self.push(letter);
        self.push_spaced(u32::from(smallest_of(plane)));
        self.push_spaced(u32::from(largest_of(plane)));
        self.push_spaced(sum_of(plane));
        self.push(b'\n');
    }

    // The three lines of the planes.
    #[tactic(auto, unfolding(crate::specs::Text::lines))]
    pub fn lines(red: &[u16], green: &[u16], blue: &[u16]) -> Self
        requires red { length red.now ≤ 4096 }
        requires green { length green.now ≤ 4096 }
        requires blue { length blue.now ≤ 4096 }
        ensures lines { result ≡ lines (three_planes red.now green.now blue.now) }
        ensures upper_bound { length result ≤ 105 }
    {
        let mut text = Text::new();
        text.push_plane_line(b'R', red);
        text.push_plane_line(b'G', green);
        text.push_plane_line(b'B', blue);
        text
    }

    // By its number: `refusal_line` is promised of every number.
    #[tactic(auto, unfolding(crate::specs::Text::refusal_line))]
    pub fn refusal(number: u32) -> Self
        ensures line { result ≡ refusal_line number }
        ensures upper_bound { length result ≤ 19 }
    {
        let mut text = Text::new();
        for &byte in b"refused" {
            text.push(byte);
        }
        text.push_spaced(number);
        text.push(b'\n');
        text
    }

    // Puts the text at the start of `out`, and answers how many bytes it has.
    pub fn put(&self, out: &mut [u8]) -> usize
        requires { length self.now ≤ length out.old }
        ensures written { Written self.now 0 out.old out.new result }
        ensures upper_bound { result ≤ 105 }
    {
        let size = self.len();
        out[..size].copy_from_slice(&self.bytes[..size]);
        size
    }
}
