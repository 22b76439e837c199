// What a program prints of a frame of at most 4096 readings, and a program as what it prints of the bytes that it reads.
#![tactic(auto)]

ghost use Rattle.std.specs.Prelude.{◌≡◌, ◌*◌, ◌≤◌, length};
ghost use Rattle.bayer.specs.Planes.{three_planes};
ghost use Rattle.bayer.specs.Refusal.{answer_number};
ghost use Rattle.plane_text.specs.Text.{lines, printed};
ghost use Rattle.frame_text.specs.FrameText.{frame_text, whole_number};

use bayer::frame::Frame;
use bayer::refusal::Refusal;
use plane_text::text::Text;
use strip::strip::strip;

pub mod program;

// The lines of the planes that a strip call filled, or of its refusal.
#[tactic(auto, using(bayer::proofs::RefusalLaws::number_positive), unfolding(plane_text::specs::Text::printed))]
fn answer_text(answer: Result<(), Refusal>, red: &[u16], green: &[u16], blue: &[u16]) -> Text
    requires red { length red.now ≤ 4096 }
    requires green { length green.now ≤ 4096 }
    requires blue { length blue.now ≤ 4096 }
    ensures { result ≡ printed (answer_number answer) (lines (three_planes red.now green.now blue.now)) }
{
    match answer {
        Ok(()) => Text::lines(red, green, blue),
        Err(refusal) => Text::refusal(refusal.number()),
    }
}

// The whole frame is one strip. The planes are room for its samples.
fn planes_text(
    frame: Frame,
    mosaic: &[u16],
    red: &mut [u16],
    green: &mut [u16],
    blue: &mut [u16],
) -> Text
    requires mosaic_len { (length mosaic.now ≡ frame.width * frame.height) × (length mosaic.now ≤ 4096) }
    requires red_len { (length red.old ≡ length mosaic.now) × (length green.old ≡ length mosaic.now) × (length blue.old ≡ length mosaic.now) }
    ensures { result ≡ frame_text (whole_number frame mosaic.now) frame mosaic.now }
{
    let answer = strip(frame, 0, frame.height, mosaic, red, green, blue);
    answer_text(answer, red, green, blue)
}

pub fn text_of_frame(frame: Frame, mosaic: &[u16]) -> Text
    requires whole { length mosaic.now ≡ frame.width * frame.height }
    requires fits { length mosaic.now ≤ 4096 }
    ensures { result ≡ frame_text (whole_number frame mosaic.now) frame mosaic.now }
{
    let size = mosaic.len();
    // Fixed memory: nothing is on the heap.
    let mut red = [0u16; 4096];
    let mut green = [0u16; 4096];
    let mut blue = [0u16; 4096];
    planes_text(
        frame,
        mosaic,
        &mut red[..size],
        &mut green[..size],
        &mut blue[..size],
    )
}
