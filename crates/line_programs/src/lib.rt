// Programs that answer line after line: the lines come from a reader in blocks, the replies go to a writer in blocks.
#![tactic(auto)]

ghost use Rattle.std.specs.Prelude.{◌≡◌, ◌==◌, ◌≤◌, ◌<◌, ◌^◌, length, OnOk};
ghost use Rattle.std.specs.Io.KnownBytes.{IsAtEnd};

use filled::Filled;
use std::io;
use std::io::{ErrorKind, Read, Write};

mod filled;

// What answers lines, one after another.
pub trait Program {
    // No reply is longer.
    const LONGEST: usize;

    // The reply to a line, without its end, put at the front of `out`: as much of it as fits. Its length there is answered.
    fn answer(&mut self, line: &[u8], out: &mut [u8]) -> usize
        ensures fits { result ≤ length out.old };
}

// A program between two lines of its input, with the front of the next line and the replies that are not written yet.
#[derive(Drop)]
struct Session<'a, P, W> {
    program: &'a mut P,
    to: &'a mut W,
    line: Filled<'a>,
    replies: Filled<'a>,
}

// Block by block to the end of the input, or until the input or the output fails. A block has at most BLOCK bytes, the first KEPT bytes of
// a line are answered, and replies of ROOM bytes wait to be written. What follows the last end of a line is a line too, unless it is
// empty. A proved loop has to end, and nothing says that the input does: it counts to a number that no run reaches.
pub fn run<const BLOCK: usize, const KEPT: usize, const ROOM: usize, P: Program, R: Read, W: Write>(
    program: &mut P,
    from: &mut R,
    to: &mut W,
) -> io::Result<()>
    requires some_input { 0 < BLOCK }
    requires block_size { BLOCK < 2 ^ 63 }
    requires line_size { KEPT < 2 ^ 63 }
    requires replies_size { ROOM < 2 ^ 63 }
    ensures end { OnOk result (IsAtEnd (R.remaining from.new)) }
{
    let mut input = [0u8; BLOCK];
    let mut line = [0u8; KEPT];
    let mut replies = [0u8; ROOM];
    let mut session = Session::new(program, to, &mut line, &mut replies);
    for _ in 0..u64::MAX {
        let n = from.read(&mut input)?;
        if n == 0 {
            return session.last_line();
        }
        session.block(&input[..n])?;
    }
    Err(io::Error::from(ErrorKind::Other))
}

fn is_line_end(b: &u8) -> bool
    ensures { result ≡ (b.now == 10) }
{
    *b == b'\n'
}

impl<'a, P: Program, W: Write> Session<'a, P, W> {
    fn new(
        program: &'a mut P,
        to: &'a mut W,
        line: &'a mut [u8],
        replies: &'a mut [u8],
    ) -> Session<'a, P, W>
        ensures no_line { result.line.count ≡ 0 }
        ensures no_replies { result.replies.count ≡ 0 }
    {
        let line = Filled::new(line);
        let replies = Filled::new(replies);
        Session {
            program,
            to,
            line,
            replies,
        }
    }

    // The lines of a block, and then the output is written: someone may wait for it before the next block.
    fn block(&mut self, block: &[u8]) -> io::Result<()> {
        for piece in block.split_inclusive(is_line_end) {
            match piece.strip_suffix(b"\n") {
                Some(end) => {
                    self.line.put(end);
                    self.line_done()?;
                }
                None => self.line.put(piece),
            }
        }
        self.write()
    }

    fn last_line(&mut self) -> io::Result<()> {
        if self.line.is_empty() {
            return Ok(());
        }
        self.line_done()?;
        self.write()
    }

    // The reply to the line goes behind what waits; where the next one might not fit behind it, that is written.
    fn line_done(&mut self) -> io::Result<()>
        ensures no_line { self.new.line.count ≡ 0 }
    {
        self.replies.put_reply(self.program, self.line.filled());
        self.line.clear();
        if self.replies.room() < P::LONGEST {
            return self.write();
        }
        Ok(())
    }

    // What waits is written, and waits no more, whether that fails or not.
    fn write(&mut self) -> io::Result<()>
        ensures same_line { self.new.line ≡ self.old.line }
        ensures no_replies { self.new.replies.count ≡ 0 }
    {
        let outcome = self.to.write_all(self.replies.filled());
        self.replies.clear();
        outcome
    }
}
