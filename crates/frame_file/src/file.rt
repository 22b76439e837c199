ghost use Rattle.std.specs.Prelude.{◌≡◌, ◌+◌, ◌*◌, ◌≤◌, length};
ghost use Rattle.lists.specs.Table.{table};
ghost use Rattle.frame_bytes.specs.FrameBytes.{big_endian};
ghost use Rattle.frame_file.specs.FrameFile.{malformed};

use frame_bytes::{four_bytes, two_bytes};

// Refusal 8.
#[tactic(auto, unfolding(crate::specs::FrameFile::malformed))]
pub fn is_malformed(bytes: &[u8]) -> bool
    ensures { result ≡ malformed bytes.now }
{
    let size = bytes.len();
    if 8202 < size || size < 10 || bytes[0] != 1 {
        return true;
    }
    let rest = four_bytes(bytes, 1) as usize;
    let width = usize::from(two_bytes(bytes, 5));
    let height = usize::from(two_bytes(bytes, 7));
    rest != size - 5 || rest != 5 + 2 * width * height
}

// The first readings, as many as there is room for.
pub fn read_readings(bytes: &[u8], out: &mut [u16])
    requires { 10 + 2 * length out.old ≤ length bytes.now }
    ensures { out.new ≡ table (λ k. big_endian bytes.now (10 + 2 * k) 2) (length out.old) }
{
    for (k, reading) in out.iter_mut().enumerate() {
        *reading = two_bytes(bytes, 10 + 2 * k);
    }
}
