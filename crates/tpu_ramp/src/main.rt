// The ramp program: lines from standard input, their replies to standard output, both in blocks.
#![tactic(auto)]

use line_programs::Program;
use std::io;

// Each byte of a block may end a line, and the replies to all of them fit.
const BLOCK: usize = 4096;

const ROOM: usize = BLOCK * ramp_lines::MAX_REPLY;

// What answers a line by that line alone.
#[derive(Drop)]
struct Ramps;

impl Program for Ramps {
    const LONGEST: usize = ramp_lines::MAX_REPLY;

    fn answer(&mut self, line: &[u8], out: &mut [u8]) -> usize {
        ramp_lines::reply(line, out)
    }
}

// Of a line 64 bytes are kept, which are answered as the whole line is: `CutSame` of ramp_lines.
fn main(rt: HostRuntime) -> io::Result<()> {
    line_programs::run::<BLOCK, 64, ROOM, _, _, _>(
        &mut Ramps,
        &mut rt.stdin(),
        &mut io::writer(&rt),
    )
}
