// The small program of test frames: smallest, largest and sum of each plane of the frame that nine bytes on standard input name. rt ci runs it on seed 0, 8 by
// 8, layout 0.
#![tactic(auto)]

use std::io;

fn main(rt: HostRuntime) -> io::Result<()> {
    frame_program::test::run(&rt)
}
