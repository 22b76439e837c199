ghost use Rattle.std.specs.Prelude.{◌≡◌};
ghost use Rattle.bayer.specs.Refusal.{number, answer_number};

// Why a call is refused: the papers' number, and their word.
#[derive(Clone, Copy, PartialEq, Eq)]
pub enum Refusal {
    // "off size"
    SizeOutOfRange = 1,
    // "unknown layout"
    UnknownLayout = 2,
    // "off the frame"
    RowsOutsideFrame = 3,
    // "short halo"
    WrongPieceLength = 4,
    // "plane misfit"
    WrongPlaneLength = 5,
    // "over range"
    ReadingOutOfRange = 6,
    // "no such row"
    RowMissing = 7,
    // "torn file"
    MalformedFile = 8,
    // "not camera planes"
    NotCameraPlanes = 9,
    // "unknown smoothing"
    UnknownSmoothing = 10,
    // "over preview size"
    OverPreviewSize = 11,
}

impl Refusal {
    pub fn number(self) -> u32
        ensures { result ≡ number self }
    {
        self as u32
    }
}

// What C and the programs are answered: 0, or the number of the refusal.
pub fn answer_number(answer: Result<(), Refusal>) -> u32
    ensures { result ≡ answer_number answer }
{
    match answer {
        Ok(()) => 0,
        Err(refusal) => refusal.number(),
    }
}
