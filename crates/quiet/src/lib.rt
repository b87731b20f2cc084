// How many ticks pass from a state in which nothing happens but that the timers and the slot go on, and the state after them.
#![tactic(auto)]

ghost use Rattle.std.specs.Prelude.{◌≡◌, min, ◌<◌};
ghost use Rattle.words.specs.Clock.{onward};
ghost use Rattle.slots.specs.Slots.{idled};
ghost use Rattle.unit.specs.TheUnit.{with_timers, with_slots};
ghost use Rattle.unit.specs.Quiet.{until_due, waits, quiet_at, quiet_below};
ghost use Rattle.pack.specs.Packing.{state_in};

use channel::pending;
use motor::Phase;
use pack::{ChannelNumber, Words};
use unit::State;
use words::{Timer, Timers};

// Before the tick in which a match set for `time` is due.
fn until_due(time: u16, timer: Timer, timers: Timers) -> u32
    ensures { result ≡ until_due time timer timers }
{
    let ahead = clock::since(time, clock::time_by(timer, timers));
    if 0x8000 < ahead {
        return 0;
    }
    clock::ticks_until(timer, timers, ahead).saturating_sub(1)
}

// Before what a group in this phase waits for, no further than an advance goes.
fn waits(p: Phase, timer: Timer, timers: Timers) -> u32
    ensures { result ≡ waits p timer timers }
{
    if let Phase::Armed(time) = p {
        return until_due(time, timer, timers);
    }
    State::MAX_TICKS
}

// In channel c.
fn quiet_at(s: &Words, c: ChannelNumber) -> u32
    ensures { result ≡ quiet_at (state_in s.now) c.number }
{
    let phase = cells::phase(s, c);
    if pending::is_wanted(registers::priority(s, c), registers::request(s, c), phase) {
        return 0;
    }
    let timer = cells::timer(s, c);
    waits(phase, timer, cells::timers(s))
}

// In all channels, at most as many as there is room for. Where motors step often the first of them answers for all.
pub fn quiet_ticks(s: &Words, room: u16) -> u16
    ensures { result ≡ min (quiet_below 16 (state_in s.now)) room }
{
    let mut q: u32 = State::MAX_TICKS;
    for c in 0..16 {
        q = q.min(quiet_at(s, ChannelNumber { number: c }));
        if q == 0 {
            return 0;
        }
    }
    q.min(u32::from(room)) as u16
}

// The law of quiet ticks asks that both timers are words: they are.
fn present(s: &Words) -> Timers
    ensures timers { result ≡ (state_in s.now).timers }
    ensures tcr1 { result.tcr1 < 65536 }
    ensures tcr2 { result.tcr2 < 65536 }
{
    cells::timers(s)
}

// After so many of them.
pub fn pass(s: &mut Words, q: u16)
    ensures state { state_in s.new ≡ with_slots (with_timers (state_in s.old) (onward q (state_in s.old).timers)) (idled q (state_in s.old).slots) }
    ensures tcr1 { (state_in s.old).timers.tcr1 < 65536 }
    ensures tcr2 { (state_in s.old).timers.tcr2 < 65536 }
{
    let timers = clock::onward(q, present(s));
    let slots = cells::slots(s);
    stores::put_timers(s, timers);
    stores::put_slots(s, slots.idled(q));
}
