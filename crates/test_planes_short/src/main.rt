// The small program of test frames again, as a program has one input under the gate: rt ci runs it on nine bytes that name a frame, without the last.
#![tactic(auto)]

use std::io;

fn main(rt: HostRuntime) -> io::Result<()> {
    frame_program::test::run(&rt)
}
