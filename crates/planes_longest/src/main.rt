// The small program again, as a program has one input under the gate: rt ci runs it on the longest file that it takes.
#![tactic(auto)]

use std::io;

fn main(rt: HostRuntime) -> io::Result<()> {
    frame_program::file::run(&rt)
}
