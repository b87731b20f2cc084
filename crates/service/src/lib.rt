// The service of a channel, in lent words: its request, then the match that was pending as the service began.
#![tactic(auto)]

ghost use Rattle.std.specs.Prelude.{◌≡◌, ◌<◌};
ghost use Rattle.motor.specs.Stepping.{on_request};
ghost use Rattle.unit.specs.TheUnit.{kind_in, time_for, motor_of};
ghost use Rattle.unit.specs.Stepping.{outcome};
ghost use Rattle.unit.specs.OneTick.{initialise, step_request, request_served, match_served, served};
ghost use Rattle.pack.specs.Packing.{state_in};

use motor::Phase;
use pack::{ChannelNumber, Words};
use words::Timer;

// The kind of a channel that is initialised with this CHANNEL_CONTROL: bits 8 to 5 are 0111, by TCR2, or else by TCR1.
fn kind_in(control: u16) -> Timer
    ensures { result ≡ kind_in control }
{
    if bitfield::timing(control) == 7 {
        Timer::Tcr2
    } else {
        Timer::Tcr1
    }
}

fn initialise(s: &mut Words, c: ChannelNumber)
    ensures { state_in s.new ≡ initialise c.number (state_in s.old) }
{
    let control = cells::word(s, c, 0);
    let pattern = cells::word(s, c, 1);
    stores::put_pin(s, c, bitfield::pair(control, 0) == 1);
    stores::put_word(s, c, 0, pattern);
    stores::set_up(s, c, kind_in(control));
    stepping::put_status(s, c);
}

// The motor of c is tested, now.
fn tested(s: &mut Words, c: ChannelNumber)
    ensures { state_in s.new ≡ outcome (state_in s.old) c.number (time_for (state_in s.old) c.number) (on_request (motor_of (state_in s.old) c.number)) }
{
    let now = matching::time_for(s, c);
    let o = decision::on_request(stepping::motor_of(s, c));
    stepping::outcome(s, c, now, o);
}

// A group that is stepping goes on as it does.
fn step_request(s: &mut Words, c: ChannelNumber, p: Phase)
    ensures { state_in s.new ≡ step_request p c.number (state_in s.old) }
{
    if matches!(p, Phase::Resting | Phase::Requested) {
        tested(s, c);
    }
}

// The request of c is no longer pending, and does what it is for.
fn request_served(s: &mut Words, c: ChannelNumber)
    ensures { state_in s.new ≡ request_served c.number (state_in s.old) }
{
    match registers::request(s, c) {
        2 => {
            registers::put_request(s, c, 0);
            initialise(s, c);
        }
        3 => {
            let p = cells::phase(s, c);
            registers::put_request(s, c, 0);
            step_request(s, c, p);
        }
        _ => {}
    }
}

// The match of a group in this phase: how late it is served is kept, and its motor is tested from the captured time on.
fn match_served(s: &mut Words, c: ChannelNumber, p: Phase)
    ensures { state_in s.new ≡ match_served p c.number (state_in s.old) }
{
    if let Phase::Matched(captured, time) = p {
        let now = matching::time_for(s, c);
        let t = clock::past(now, time);
        stores::put_late(s, c, t.counts);
        let o = decision::on_match(stepping::motor_of(s, c));
        stepping::outcome(s, c, captured, o);
    }
}

pub fn serve(s: &mut Words, c: ChannelNumber)
    ensures { state_in s.new ≡ served c.number (state_in s.old) }
{
    let p = cells::phase(s, c);
    request_served(s, c);
    match_served(s, c, p);
}
