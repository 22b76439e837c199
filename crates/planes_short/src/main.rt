// The small program again, as a program has one input under the gate: rt ci runs it on a frame file without its last byte.
#![tactic(auto)]

use std::io;

fn main(rt: HostRuntime) -> io::Result<()> {
    frame_program::file::run(&rt)
}
