// The ramp program's lines: what each asks, and the bytes that answer it.
#![tactic(auto)]

ghost use Rattle.std.specs.Prelude.{◌≡◌, min, length};
ghost use Rattle.text.specs.Placing.{Wrote, written};
ghost use Rattle.ramp_lines.specs.Replying.{letter_of, reply_by, reply_to};

use crate::line::Request;
use ramp::Ramp;
use text::Page;

mod line;
mod print;

// No reply is longer: a letter, two words, and 14 periods of 5 digits.
pub const MAX_REPLY: usize = 12 + 14 * 6;

// The reply to a line, without its end, put at the front of `out`: as much of it as fits. Its length there is answered.
#[tactic(auto, using(text::proofs::PlacingLaws::from_front), unfolding(crate::specs::Replying::reply_to))]
pub fn reply(line: &[u8], out: &mut [u8]) -> usize
    ensures length { result ≡ min (length (reply_to line.now)) (length out.old) }
    ensures bytes { out.new ≡ written out.old 0 (reply_to line.now) }
{
    let mut page = Page::new(out);
    answer(line::read(line), &mut page);
    page.filled
}

#[tactic(auto, unfolding(crate::specs::Replying::reply_by))]
fn answer(request: Option<Request>, page: &mut Page)
    ensures { Wrote page.old (reply_by request) page.new }
{
    match request {
        Some(Request { sheet, tick, rates }) => {
            let controls = ramp::from_sheet(sheet, tick, rates);
            print::answer(page, letter(sheet), rates, controls);
        }
        None => page.text(b"E\n"),
    }
}

#[tactic(auto, unfolding(crate::specs::Replying::letter_of))]
fn letter(sheet: Ramp) -> u8
    ensures { result ≡ letter_of sheet }
{
    match sheet {
        Ramp::Periods(_, _) => b'P',
        Ramp::Speeds(_, _) => b'S',
    }
}
