// The requests of an HSRR word: each channel is asked as if the lower ones were taken.
ghost use Rattle.std.specs.Prelude.{◌≡◌, ◌&&◌, eqb, ◌<◌, ◌≤◌, Ok, Err};
ghost use Rattle.unit.specs.TheUnit.{request, stepping};
ghost use Rattle.words.specs.Choice.{ask};
ghost use Rattle.unit.specs.Gate.{Yes, No, is_stepper, requested, ask_initialise, ask_step, ask_channel, ask_channels};
ghost use Rattle.pack.specs.Packing.{state_in};
ghost use Rattle.unit.specs.declared.Refusal.TheVariants.{OtherFunction};
ghost use Rattle.requests.specs.Told.{told, ask_ramp};

use pack::{ChannelNumber, Words};
use unit::Refusal;

// One question: a no is answered by its refusal.
fn ask(holds: bool, no: Refusal) -> Result<(), Refusal>
    ensures { result ≡ ask holds (Err no) (Ok tt) }
{
    if holds { Ok(()) } else { Err(no) }
}

// Questions 2 to 4.
fn ask_initialise(s: &Words, c: ChannelNumber) -> Result<(), Refusal>
    ensures { told result (requested (state_in s.now) c.number 2) ≡ ask_initialise (state_in s.now) c.number }
{
    ask(binding::is_free(s, c), Refusal::NotFree)?;
    ask(questions::is_stepper(s, c), Refusal::OtherFunction)?;
    ask(questions::may_initialise(s, c), Refusal::WrongControl)
}

// A step request on a stepping primary without a pending one.
fn is_again(s: &Words, c: ChannelNumber) -> bool
    ensures { result ≡ (stepping (state_in s.now) c.number && eqb (request (state_in s.now) c.number) 0) }
{
    binding::stepping(s, c) && registers::request(s, c) == 0
}

fn ask_again(s: &Words, c: ChannelNumber) -> Result<(), Refusal>
    ensures { told result (requested (state_in s.now) c.number 3) ≡ ask (is_stepper (state_in s.now) c.number) (No OtherFunction) (Yes (requested (state_in s.now) c.number 3)) }
{
    ask(questions::is_stepper(s, c), Refusal::OtherFunction)
}

// The questions of the ramp, 8 and 14, then 9.
fn ask_ramp(s: &Words, c: ChannelNumber) -> Result<(), Refusal>
    ensures { told result (requested (state_in s.now) c.number 3) ≡ ask_ramp (state_in s.now) c.number }
{
    let cntl0 = fields::cntl0(s, c);
    let cntl1 = fields::cntl1(s, c);
    let top = fields::top(s, c);
    let target = cells::word(s, c, 3);
    ask(questions::ramp_good(cntl0, cntl1, top), Refusal::WrongRamp)?;
    ask(questions::quick_good(cntl0, cntl1, top), Refusal::TooFast)?;
    ask(questions::target_good(s, c, target), Refusal::TargetTooFar)
}

// Questions 2, 3 and 5 to 7, then the last ones; of a request that comes again, question 3.
fn ask_step(s: &Words, c: ChannelNumber) -> Result<(), Refusal>
    ensures { told result (requested (state_in s.now) c.number 3) ≡ ask_step (state_in s.now) c.number }
{
    if is_again(s, c) {
        return ask_again(s, c);
    }
    ask(binding::is_free(s, c), Refusal::NotFree)?;
    ask(questions::is_stepper(s, c), Refusal::OtherFunction)?;
    ask(questions::span_good(s, c), Refusal::WrongSpan)?;
    ask(questions::group_ready(s, c), Refusal::GroupNotReady)?;
    ask(questions::pattern_good(s, c), Refusal::WrongPattern)?;
    ask_ramp(s, c)
}

// Channel c with its two bits r of the word.
pub fn ask_channel(s: &Words, c: ChannelNumber, r: u16) -> Result<(), Refusal>
    ensures { told result (requested (state_in s.now) c.number r) ≡ ask_channel r c.number (state_in s.now) }
{
    match r {
        2 => ask_initialise(s, c),
        3 => ask_step(s, c),
        _ => Ok(()),
    }
}

// The eight channels of a word v from a on, the lowest first, to the first no. The words are used up: they are a copy to try the requests on.
pub fn ask_channels(s: &mut Words, a: u16, v: u16) -> Result<(), Refusal>
    requires { a ≤ 8 }
    ensures { told result (state_in s.new) ≡ ask_channels 8 a v (state_in s.old) }
{
    for c in a..a + 8 {
        let r = bitfield::pair(v, c);
        if 2 <= r {
            let channel = ChannelNumber { number: c };
            ask_channel(s, channel, r)?;
            binding::requested(s, channel, r);
        }
    }
    Ok(())
}
