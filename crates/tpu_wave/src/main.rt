// The waveform program: a script from standard input, what it does as a value change dump to standard output, both in blocks.
#![tactic(auto)]

use drawing::Recorder;
use line_programs::Program;
use std::io;
use std::io::Read;

// How much of the input is read at once.
const BLOCK: usize = 65536;

// The longest drawing, and room for short ones that wait, so that the output is written seldom.
const ROOM: usize = drawing::MAX_DRAWN + 65536;

#[derive(Drop)]
struct Waveform {
    recorder: Recorder,
}

impl Program for Waveform {
    const LONGEST: usize = drawing::MAX_DRAWN;

    fn answer(&mut self, line: &[u8], out: &mut [u8]) -> usize {
        self.recorder.draw(line, out)
    }
}

// The header, and then line by line. Of a line 16 bytes are kept: no form has as many, so what follows them does not matter
// (`CutSame` of drawing).
fn main(rt: HostRuntime) -> io::Result<()> {
    let mut header = [0u8; 4096];
    let n = wave::header(&mut header);
    if let Err(e) = rt.write_all(&header[..n]) {
        return not_begun(&mut rt.stdin(), e);
    }
    let mut waveform = Waveform {
        recorder: Recorder::RESET,
    };
    line_programs::run::<BLOCK, 16, ROOM, _, _, _>(
        &mut waveform,
        &mut rt.stdin(),
        &mut io::writer(&rt),
    )
}

// The header cannot be written. A block is read all the same, since what is wrong with the input is told first.
fn not_begun(from: &mut impl Read, e: io::Error) -> io::Result<()> {
    from.read(&mut [0u8; BLOCK])?;
    Err(e)
}
