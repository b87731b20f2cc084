// Stepping in lent words: the motor of a group, a step of it, and what a test decided. What is asked of the state is read before anything
// changes, as the definitions have it.
#![tactic(auto)]

ghost use Rattle.std.specs.Prelude.{◌≡◌, ◌+◌, ◌≤◌, ◌<◌};
ghost use Rattle.words.specs.Field.{with_field};
ghost use Rattle.motor.specs.Stepping.{period, beside};
ghost use Rattle.unit.specs.TheUnit.{each, motor_of, word, position, next_rate, cntl0, cntl1, with_word, with_status};
ghost use Rattle.unit.specs.Stepping.{prepared, match_set, stepped, outcome};
ghost use Rattle.pack.specs.Packing.{state_in};

use channel::pattern;
use motor::{Motor, Outcome, Way};
use pack::{ChannelNumber, Words};
use unit::State;

pub fn motor_of(s: &Words, c: ChannelNumber) -> Motor
    ensures { result ≡ motor_of (state_in s.now) c.number }
{
    Motor {
        position: cells::word(s, c, 2),
        target: cells::word(s, c, 3),
        rate: fields::next_rate(s, c),
        top: fields::top(s, c),
        way: cells::way(s, c),
    }
}

// The period of the step to come.
fn period_of(s: &Words, c: ChannelNumber) -> u16
    ensures { result ≡ period (cntl0 (state_in s.now) c.number) (cntl1 (state_in s.now) c.number) (next_rate (state_in s.now) c.number) }
{
    step::period(
        fields::cntl0(s, c),
        fields::cntl1(s, c),
        fields::next_rate(s, c),
    )
}

// A step in channel j of its group: the pattern, and the level for the next match. MOD_CNT is m after it.
fn prepared(s: &mut Words, j: ChannelNumber, way: Way, m: u16)
    ensures { state_in s.new ≡ prepared way m j.number (state_in s.old) }
{
    let x = pattern::turned_once(way, cells::word(s, j, 0));
    let w = pattern::reloaded(m, cells::word(s, j, 1), x);
    stores::put_word(s, j, 0, w);
    stores::put_level(s, j, bitfield::bit(x, 15));
}

// The same in n channels from c on.
fn all_prepared(s: &mut Words, c: u16, n: u16, way: Way, m: u16)
    requires { c + n ≤ 16 }
    ensures { state_in s.new ≡ each n c (prepared way m) (state_in s.old) }
{
    for i in 0..n {
        prepared(s, ChannelNumber { number: c + i }, way, m);
    }
}

// Position, MOD_CNT and rate of the primary c after a step.
fn counted(s: &mut Words, c: ChannelNumber, way: Way, m: u16, k: u16)
    ensures { state_in s.new ≡ with_word (with_word (state_in s.old) c.number 2 (beside way (position (state_in s.old) c.number))) c.number 4 (with_field 4 (with_field 4 (word (state_in s.old) c.number 4) 8 m) 0 k) }
{
    let place = step::beside(way, cells::word(s, c, 2));
    let w = pattern::counted(cells::word(s, c, 4), m, k);
    stores::put_word(s, c, 2, place);
    stores::put_word(s, c, 4, w);
}

// A match is set for a time; where it is due already it happens there.
fn match_set(s: &mut Words, c: ChannelNumber, way: Way, time: u16)
    ensures { state_in s.new ≡ match_set (state_in s.old) c.number way time }
{
    let now = matching::time_for(s, c);
    let t = clock::past(now, time);
    if t.due {
        matching::pins_out(s, c);
        stores::happen(s, c, way, now, time);
        return;
    }
    stores::arm(s, c, way, time);
}

fn stepped(s: &mut Words, c: ChannelNumber, reference: u16, way: Way, k: u16)
    ensures { state_in s.new ≡ stepped (state_in s.old) c.number reference way k }
{
    let m = pattern::next_count(way, fields::mod_count(s, c));
    let time = clock::later(reference, period_of(s, c));
    let n = fields::size(s, c);
    counted(s, c, way, m, k);
    all_prepared(s, c.number, n, way, m);
    match_set(s, c, way, time);
}

pub fn put_status(s: &mut Words, c: ChannelNumber)
    ensures { state_in s.new ≡ with_status (state_in s.old) c.number }
{
    let w = bitfield::with_bit(cells::reg(s, State::CISR), c.number, true);
    stores::put_reg(s, State::CISR, w);
}

// The run ends, or a step.
pub fn outcome(s: &mut Words, c: ChannelNumber, reference: u16, o: Outcome)
    ensures { state_in s.new ≡ outcome (state_in s.old) c.number reference o }
{
    match o {
        Outcome::Arrived => {
            stores::rest(s, c);
            put_status(s, c);
        }
        Outcome::Step(way, k) => stepped(s, c, reference, way, k),
    }
}
