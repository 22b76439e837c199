// Reads cases from standard input, hands each to the library, and writes each answer as a line of numbers. tools/make_cases.py says what the lines mean, and
// writes them with the answers of the other implementation, to which this program's answers are held.
#![tactic(auto)]

use crate::fusion_case::FusionCase;
use crate::kind::Kind;
use crate::mosaic_case::{MosaicCase, there_and_back};
use crate::numbers::{Numbers, numbers_of};
use crate::piece_case::PieceCase;
use crate::strip_case::StripCase;
use crate::test_case::{JumpCase, TestFrameCase, TestRowCase};
use crate::view_case::{PartnerViewCase, RowViewCase};
use input::read_full;
use std::io;

mod frame;
mod fusion_case;
mod kind;
mod mosaic_case;
mod numbers;
mod piece_case;
mod planes;
mod recipe;
mod small_case;
mod strip_case;
mod summary;
mod test_case;
mod view_case;

// A case of this kind.
fn answer(rt: &impl Print, kind: Kind, numbers: &mut Numbers) -> io::Result<()> {
    match kind {
        Kind::Strip => StripCase::read(numbers).run(rt),
        Kind::SmallFrame => small_case::run(rt, &StripCase::read(numbers)),
        Kind::Mosaic => MosaicCase::read(numbers).run(rt),
        Kind::ThereAndBack => there_and_back(rt, &StripCase::read(numbers)),
        Kind::Jump => JumpCase::read(numbers).run(rt),
        Kind::TestFrame => TestFrameCase::read(numbers).run(rt),
        Kind::TestRow => TestRowCase::read(numbers).run(rt),
        Kind::RowView => RowViewCase::read(numbers).run(rt),
        Kind::PartnerView => PartnerViewCase::read(numbers).run(rt),
        Kind::Piece => PieceCase::read(numbers).run(rt),
        Kind::Fusion => FusionCase::read(numbers).run(rt),
    }
}

// One line: a case, or a comment, which has no answer.
fn line(rt: &impl Print, line: &[u8]) -> io::Result<()> {
    let Some(letter) = line.first() else {
        return Ok(());
    };
    let Ok(kind) = Kind::try_from(*letter) else {
        return Ok(());
    };
    let read = numbers_of(line);
    answer(rt, kind, &mut Numbers(read.iter()))
}

// Fixed memory, as in the library: nothing here is on the heap.
fn main(rt: HostRuntime) -> io::Result<()> {
    let mut bytes = [0u8; 400000];
    let n = read_full(&mut rt.reader(), &mut bytes)?;
    for text in bytes[..n].split(|byte| *byte == b'\n') {
        line(&rt, text)?;
    }
    Ok(())
}
