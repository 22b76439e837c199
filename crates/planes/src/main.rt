// The small program: smallest, largest and sum of each plane of the frame file on standard input. rt ci runs it on document 01's example.
#![tactic(auto)]

use std::io;

fn main(rt: HostRuntime) -> io::Result<()> {
    frame_program::file::run(&rt)
}
