// A tick begins: the timers and the slot go on, and the matches that are due act, in lent words.
#![tactic(auto)]

ghost use Rattle.std.specs.Prelude.{◌≡◌, ◌<◌};
ghost use Rattle.motor.specs.declared.Phase.TheVariants.{Armed};
ghost use Rattle.unit.specs.TheUnit.{time_for, each};
ghost use Rattle.unit.specs.Stepping.{pin_out, pins_out};
ghost use Rattle.unit.specs.OneTick.{match_of, matched, clocked};
ghost use Rattle.pack.specs.Packing.{state_in};

use motor::Phase;
use pack::{ChannelNumber, Words};

// The time of the group of c.
pub fn time_for(s: &Words, c: ChannelNumber) -> u16
    ensures { result ≡ time_for (state_in s.now) c.number }
{
    let timer = cells::timer(s, c);
    clock::time_by(timer, cells::timers(s))
}

pub fn clocked(s: &mut Words)
    ensures { state_in s.new ≡ clocked (state_in s.old) }
{
    let timers = clock::onward(1, cells::timers(s));
    let slots = cells::slots(s);
    stores::put_timers(s, timers);
    stores::put_slots(s, slots.ticked());
}

// The pin of channel j takes its prepared level.
fn pin_out(s: &mut Words, j: ChannelNumber)
    ensures { state_in s.new ≡ pin_out j.number (state_in s.old) }
{
    let on = cells::level(s, j);
    stores::put_pin(s, j, on);
}

// Those of the group of c.
pub fn pins_out(s: &mut Words, c: ChannelNumber)
    ensures { state_in s.new ≡ pins_out (state_in s.old) c.number }
{
    let n = fields::size(s, c);
    for k in 0..n {
        pin_out(
            s,
            ChannelNumber {
                number: c.number + k,
            },
        );
    }
}

// A match that is set for this time acts if it is due.
fn armed(s: &mut Words, c: ChannelNumber, time: u16)
    ensures { state_in s.new ≡ match_of (Armed time) c.number (state_in s.old) }
{
    let now = time_for(s, c);
    let t = clock::past(now, time);
    if t.due {
        let way = cells::way(s, c);
        pins_out(s, c);
        stores::happen(s, c, way, now, time);
    }
}

fn match_one(s: &mut Words, c: ChannelNumber)
    ensures { state_in s.new ≡ matched c.number (state_in s.old) }
{
    if let Phase::Armed(time) = cells::phase(s, c) {
        armed(s, c, time);
    }
}

pub fn match_all(s: &mut Words)
    ensures { state_in s.new ≡ each 16 0 matched (state_in s.old) }
{
    for c in 0..16 {
        match_one(s, ChannelNumber { number: c });
    }
}
