// The kinds of cases, by the letter with which a line begins.
#[derive(Clone, Copy)]
pub enum Kind {
    Strip,
    SmallFrame,
    Mosaic,
    ThereAndBack,
    Jump,
    TestFrame,
    TestRow,
    RowView,
    PartnerView,
    Piece,
    Fusion,
}

// A line of another letter is a comment.
#[derive(Clone, Copy)]
pub struct Comment;

impl TryFrom<u8> for Kind {
    type Error = Comment;

    fn try_from(letter: u8) -> Result<Self, Comment> {
        match letter {
            b'S' => Ok(Kind::Strip),
            b'C' => Ok(Kind::SmallFrame),
            b'M' => Ok(Kind::Mosaic),
            b'B' => Ok(Kind::ThereAndBack),
            b'J' => Ok(Kind::Jump),
            b'W' => Ok(Kind::TestFrame),
            b'L' => Ok(Kind::TestRow),
            b'V' => Ok(Kind::RowView),
            b'Q' => Ok(Kind::PartnerView),
            b'R' => Ok(Kind::Piece),
            b'F' => Ok(Kind::Fusion),
            _ => Err(Comment),
        }
    }
}
