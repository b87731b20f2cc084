// The bytes of a reply, put on a page.
ghost use Rattle.std.specs.Prelude.{◌∷◌};
ghost use Rattle.text.specs.Placing.{Wrote};
ghost use Rattle.text.specs.Printing.{decimal};
ghost use Rattle.ramp_lines.specs.Replying.{periods_to, taken, answer_by};

use ramp::{CannotRun, Controls};
use text::Page;

// What is answered, for the ramp of a letter with n rates.
#[tactic(auto, unfolding(crate::specs::Replying::answer_by))]
pub fn answer(page: &mut Page, letter: u8, n: u8, controls: Result<Controls, CannotRun>)
    ensures { Wrote page.old (answer_by letter n controls) page.new }
{
    match controls {
        Ok(words) => taken(page, letter, n, words),
        Err(refusal) => printing::number_line(page, b'N', u64::from(refusal.number())),
    }
}

// The letter, both words and the periods.
fn taken(page: &mut Page, letter: u8, n: u8, words: Controls)
    ensures { Wrote page.old (taken letter n words.step_cntl0 words.step_cntl1) page.new }
{
    page.pair(letter, b' ');
    printing::word(page, words.step_cntl0);
    page.put(b' ');
    printing::word(page, words.step_cntl1);
    periods(page, n, words);
    page.put(b'\n');
}

// P(1) to P(n).
fn periods(page: &mut Page, n: u8, words: Controls)
    ensures { Wrote page.old (periods_to n words.step_cntl0 words.step_cntl1) page.new }
{
    for r in 0..n {
        let p = step::period(words.step_cntl0, words.step_cntl1, u16::from(r) + 1);
        number(page, u64::from(p));
    }
}

// A space and a number.
fn number(page: &mut Page, n: u64)
    ensures { Wrote page.old (32 ∷ decimal n) page.new }
{
    page.put(b' ');
    printing::decimal(page, n);
}
