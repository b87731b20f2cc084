// What is shown of the unit, as a value change dump: the head of the file, and what changes in a tick.
#![tactic(auto)]

ghost use Rattle.std.specs.Prelude.{◌≡◌, min, length};
ghost use Rattle.text.specs.Placing.{Wrote, written};
ghost use Rattle.wave.specs.Header.{header};
ghost use Rattle.wave.specs.Changes.{changes};

use text::Page;
use unit::State;

mod declare;

// The head of the file, with the values at reset, put at the front of `out`: as much of it as fits. Answers how many bytes that is.
#[tactic(auto, using(text::proofs::PlacingLaws::from_front))]
pub fn header(out: &mut [u8]) -> usize
    ensures length { result ≡ min (length header) (length out.old) }
    ensures text { out.new ≡ written out.old 0 header }
{
    let mut page = Page::new(out);
    head(&mut page);
    page.filled
}

fn head(page: &mut Page)
    ensures { Wrote page.old header page.new }
{
    page.text(b"$comment one unit of time is one tick of TCR1 $end\n");
    page.text(b"$timescale 1 us $end\n$scope module tpu $end\n");
    declare::channels(page, 1, b'a', b"pin");
    page.text(b"$var wire 16 ! tcr1 $end\n");
    declare::channels(page, 16, b'A', b"position");
    page.text(b"$var wire 1 \" interrupt $end\n");
    page.text(b"$upscope $end\n$enddefinitions $end\n#0\n$dumpvars\n");
    signals::values(page, None, State::RESET);
    page.text(b"$end\n");
}

// What one tick changes, since the state that was drawn last.
pub fn changes(page: &mut Page, tick: u64, old: State, s: State)
    ensures { Wrote page.old (changes tick old s) page.new }
{
    page.put(b'#');
    printing::decimal(page, tick);
    page.put(b'\n');
    signals::values(page, Some(old), s);
}
