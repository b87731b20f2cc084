// Ticks in a row on the words that a caller lends, each with its pin word. Quiet ticks are made at once.
#![tactic(auto)]

ghost use Rattle.std.specs.Prelude.{◌≡◌, ◌++◌, ◌≤◌, ◌<◌, length, drop, replicate};
ghost use Rattle.words.specs.Choice.{pick};
ghost use Rattle.unit.specs.Gate.{advance_good};
ghost use Rattle.unit.specs.OneTick.{after_ticks};
ghost use Rattle.unit.specs.Calls.{pin_words, advance_of, lent_after};
ghost use Rattle.unit.specs.Quiet.{quiet_below};
ghost use Rattle.unit.specs.Answers.{answer_number};
ghost use Rattle.pack.specs.Packing.{state_in};

use pack::Words;
use unit::{Refusal, State};

// How many quiet ticks to make at once. One tick alone is made as any other: to look ahead of it would cost more than it saves.
fn leap(s: &Words, room: u16) -> u16
    ensures quiet { result ≤ quiet_below 16 (state_in s.now) }
    ensures room { result ≤ room }
{
    if room < 2 {
        return 0;
    }
    quiet::quiet_ticks(s, room)
}

// The quiet ticks, or one tick in which something may happen; at most as many as there is room for. All end with the same pin word.
fn onward(s: &mut Words, room: u16) -> u16
    requires { 0 < room }
    ensures some { 0 < result }
    ensures room { result ≤ room }
    ensures state { state_in s.new ≡ after_ticks result (state_in s.old) }
    ensures pins { pin_words result (state_in s.old) ≡ replicate result (after_ticks result (state_in s.old)).pins }
{
    let q = leap(s, room);
    if q == 0 {
        tick::tick(s);
        return 1;
    }
    quiet::pass(s, q);
    q
}

// The word goes to the first k places of a list.
pub fn fill(rest: &mut [u16], k: usize, w: u16)
    requires { k ≤ length rest.old }
    ensures { rest.new ≡ replicate k w ++ drop k rest.old }
{
    rest[..k].fill(w);
}

// The rest of the list is lent on from the present tick.
fn run(s: &mut Words, n: usize, lent: &mut [u16])
    requires most { n ≤ 4096 }
    requires room { n ≤ length lent.old }
    ensures state { state_in s.new ≡ after_ticks n (state_in s.old) }
    ensures pins { lent.new ≡ pin_words n (state_in s.old) ++ drop n lent.old }
{
    let mut i: usize = 0;
    while i < n {
        let k = onward(s, (n - i) as u16) as usize;
        fill(&mut lent[i..], k, cells::pins(s));
        i += k;
    }
}

// n ticks, the pin word after each in the first n words of the lent list.
pub fn advance(s: &mut Words, n: u32, lent: &mut [u16]) -> Result<(), Refusal>
    ensures answer { result ≡ (advance_of (state_in s.old) n lent.old).answer }
    ensures state { state_in s.new ≡ (advance_of (state_in s.old) n lent.old).state }
    ensures pins { lent.new ≡ lent_after (state_in s.old) n lent.old }
    ensures number { answer_number result ≡ pick (advance_good n lent.old) 0 10 }
{
    if State::MAX_TICKS < n || lent.len() < n as usize {
        return Err(Refusal::TooManyTicks);
    }
    run(s, n as usize, lent);
    Ok(())
}
