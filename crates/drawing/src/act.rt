// Each command carried out, and what it draws put on a page.
ghost use Rattle.std.specs.Prelude.{◌≡◌, Some};
ghost use Rattle.unit.specs.OneTick.{tick};
ghost use Rattle.text.specs.Placing.{Wrote};
ghost use Rattle.parse.specs.declared.Command.TheVariants.{Write, Read, Ticks};
ghost use Rattle.wave.specs.Changes.{changes};
ghost use Rattle.drawing.specs.Drawing.{Drew, refusal_note};

use crate::Recorder;
use text::Page;
use unit::{Refusal, State};

impl Recorder {
    pub(crate) fn write(&mut self, address: u16, value: u16, page: &mut Page)
        ensures { Drew (Some (Write address value)) self.old self.new page.old page.new }
    {
        let written = tpu::write(self.bench.state, address, value);
        self.bench.state = written.state;
        if let Err(refusal) = written.answer {
            refusal_note(refusal, page);
        }
    }

    pub(crate) fn read(&self, address: u16, page: &mut Page)
        ensures { Drew (Some (Read address)) self.now self.now page.old page.new }
    {
        if let Err(refusal) = tpu::read(self.bench.state, address) {
            refusal_note(refusal, page);
        }
    }

    // An advance is made tick by tick, since each is drawn.
    pub(crate) fn advance(&mut self, count: u16, page: &mut Page)
        ensures { Drew (Some (Ticks count)) self.old self.new page.old page.new }
    {
        if State::MAX_TICKS < u32::from(count) {
            refusal_note(Refusal::TooManyTicks, page);
            return;
        }
        let ticks = self.bench.ticks;
        for i in 0..count {
            self.tick(ticks.wrapping_add(u64::from(i) + 1), page);
        }
    }

    // The tick of a number. Its pin word is in the state too.
    fn tick(&mut self, number: u64, page: &mut Page)
        ensures state { self.new.bench.state ≡ tick self.old.bench.state }
        ensures ticks { self.new.bench.ticks ≡ number }
        ensures seen { self.new.seen ≡ self.new.bench.state }
        ensures drawn { Wrote page.old (changes number self.old.seen self.new.bench.state) page.new }
    {
        let mut pins = [0; 1];
        let advanced = tpu::advance(self.bench.state, 1, &mut pins);
        wave::changes(page, number, self.seen, advanced.state);
        self.bench.state = advanced.state;
        self.bench.ticks = number;
        self.seen = advanced.state;
    }
}

fn refusal_note(refusal: Refusal, page: &mut Page)
    ensures { Wrote page.old (refusal_note refusal) page.new }
{
    page.text(b"$comment N ");
    printing::decimal(page, u64::from(refusal.number()));
    page.text(b" $end\n");
}
