// Numbers of two and of four bytes, big-endian, a frame description among bytes, and the first of some bytes.
#![tactic(auto)]

ghost use Rattle.std.specs.Prelude.{◌≡◌, ◌+◌, ◌≤◌, length, take};
ghost use Rattle.frame_bytes.specs.FrameBytes.{big_endian, frame_at};

use bayer::frame::Frame;

#[tactic(auto, using(crate::proofs::BigEndianLaws::two_read))]
pub fn two_bytes(bytes: &[u8], at: usize) -> u16
    requires { at + 2 ≤ length bytes.now }
    ensures { result ≡ big_endian bytes.now at 2 }
{
    u16::from_be_bytes([bytes[at], bytes[at + 1]])
}

#[tactic(auto, using(crate::proofs::BigEndianLaws::four_read))]
pub fn four_bytes(bytes: &[u8], at: usize) -> u32
    requires { at + 4 ≤ length bytes.now }
    ensures { result ≡ big_endian bytes.now at 4 }
{
    u32::from_be_bytes([bytes[at], bytes[at + 1], bytes[at + 2], bytes[at + 3]])
}

// The frame description of a program's input. The programs name smoothing 0, since a caller who names none gets 1.
pub fn frame_at(bytes: &[u8], at: usize) -> Frame
    requires { at + 5 ≤ length bytes.now }
    ensures { result ≡ frame_at bytes.now at }
{
    let width = usize::from(two_bytes(bytes, at));
    let height = usize::from(two_bytes(bytes, at + 2));
    Frame::smoothed(width, height, bytes[at + 4], 0)
}

// The first n bytes, or all where there are fewer.
pub fn first_bytes(bytes: &[u8], n: usize) -> &[u8]
    ensures { result.now ≡ take n bytes.now }
{
    &bytes[..n.min(bytes.len())]
}
