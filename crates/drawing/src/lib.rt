// What a line of a script draws: the unit goes on as the script program has it, and each tick is shown.
#![tactic(auto)]

ghost use Rattle.std.specs.Prelude.{◌≡◌, min, length};
ghost use Rattle.text.specs.Placing.{Wrote, written};
ghost use Rattle.script.specs.Replying.{state_after, ticks_after, state_by, ticks_by};
ghost use Rattle.drawing.specs.Drawing.{drawing, seen_after, drawing_by, seen_by};

use parse::Command;
use script::Bench;
use text::Page;
use unit::State;

mod act;

// Nothing that a line draws is longer: 4,096 ticks of 413 bytes.
pub const MAX_DRAWN: usize = State::MAX_TICKS as usize * 413;

// The unit on its bench, and the state that was drawn last.
#[derive(Clone, Copy)]
pub struct Recorder {
    pub bench: Bench,
    pub seen: State,
}

impl Recorder {
    pub const RESET: Recorder = Recorder {
        bench: Bench::RESET,
        seen: State::RESET,
    };

    // What a line, without its end, draws, put at the front of `out`: as much of it as fits. Answers how many bytes that is.
    #[tactic(auto, using(text::proofs::PlacingLaws::from_front))]
    pub fn draw(&mut self, line: &[u8], out: &mut [u8]) -> usize
        ensures state { self.new.bench.state ≡ state_after self.old.bench.state line.now }
        ensures ticks { self.new.bench.ticks ≡ ticks_after self.old.bench.state self.old.bench.ticks line.now }
        ensures seen { self.new.seen ≡ seen_after self.old.seen self.old.bench.state line.now }
        ensures length { result
            ≡ min (length (drawing self.old.seen self.old.bench.state self.old.bench.ticks line.now)) (length out.old) }
        ensures text { out.new
            ≡ written out.old 0 (drawing self.old.seen self.old.bench.state self.old.bench.ticks line.now) }
    {
        let mut page = Page::new(out);
        self.carry_out(parse::line(line), &mut page);
        page.filled
    }

    fn carry_out(&mut self, command: Option<Command>, page: &mut Page)
        ensures state { self.new.bench.state ≡ state_by command self.old.bench.state }
        ensures ticks { self.new.bench.ticks ≡ ticks_by command self.old.bench.state self.old.bench.ticks }
        ensures seen { self.new.seen ≡ seen_by command self.old.seen self.old.bench.state }
        ensures drawn { Wrote page.old
            (drawing_by command self.old.seen self.old.bench.state self.old.bench.ticks) page.new }
    {
        match command {
            Some(Command::Write { address, value }) => self.write(address, value, page),
            Some(Command::Read { address }) => self.read(address, page),
            Some(Command::Ticks { count }) => self.advance(count, page),
            None => page.text(b"$comment E $end\n"),
        }
    }
}
