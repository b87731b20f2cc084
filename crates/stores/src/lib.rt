// The state that lent words hold, changed where it stands: a word, or some bits of one.
#![tactic(auto)]

ghost use Rattle.std.specs.Prelude.{◌≡◌, ◌<◌, false};
ghost use Rattle.words.specs.Field.{with_field};
ghost use Rattle.motor.specs.declared.Phase.TheVariants.{Resting, Armed, Matched};
ghost use Rattle.unit.specs.TheUnit.{way_number, timer_number, channel, with_word, with_reg, with_timers, with_pin, with_slots, with_initialised, with_set_up, with_level, with_phase, with_binding, with_late};
ghost use Rattle.pack.specs.Packing.{state_in};

use motor::Way;
use pack::{ChannelNumber, Words, layout};
use slots::Slots;
use words::{Timer, Timers};

// Word i of channel c.
pub fn put_word(s: &mut Words, c: ChannelNumber, i: u16, v: u16)
    requires word { i < 8 }
    ensures { state_in s.new ≡ with_word (state_in s.old) c.number i v }
{
    s[8 * (c.number as usize) + i as usize] = v;
}

pub fn put_reg(s: &mut Words, i: u16, v: u16)
    requires { i < 12 }
    ensures { state_in s.new ≡ with_reg (state_in s.old) i v }
{
    s[layout::REGS + i as usize] = v;
}

pub fn put_timers(s: &mut Words, t: Timers)
    ensures { state_in s.new ≡ with_timers (state_in s.old) t }
{
    s[layout::TCR1] = t.tcr1;
    s[layout::TCR2] = t.tcr2;
}

pub fn put_pin(s: &mut Words, c: ChannelNumber, on: bool)
    ensures { state_in s.new ≡ with_pin (state_in s.old) c.number on }
{
    s[layout::PINS] = bitfield::with_bit(s[layout::PINS], c.number, on);
}

pub fn put_slots(s: &mut Words, t: Slots)
    ensures { state_in s.new ≡ with_slots (state_in s.old) t }
{
    s[layout::SLOTS] = t.slot;
    s[layout::SLOTS + 1] = t.high;
    s[layout::SLOTS + 2] = t.middle;
    s[layout::SLOTS + 3] = t.low;
}

// How late its latest match service was.
pub fn put_late(s: &mut Words, c: ChannelNumber, n: u16)
    ensures { state_in s.new ≡ with_late (state_in s.old) c.number n }
{
    s[layout::LATES + c.number as usize] = n;
}

pub fn put_level(s: &mut Words, c: ChannelNumber, on: bool)
    ensures { state_in s.new ≡ with_level (state_in s.old) c.number on }
{
    let at = layout::FLAGS + c.number as usize;
    s[at] = bitfield::with_bit(s[at], 1, on);
}

pub fn uninitialise(s: &mut Words, c: ChannelNumber)
    ensures { state_in s.new ≡ with_initialised (state_in s.old) c.number false }
{
    let at = layout::FLAGS + c.number as usize;
    s[at] = bitfield::with_bit(s[at], 0, false);
}

fn timer_number(t: Timer) -> u16
    ensures { result ≡ timer_number t }
{
    match t {
        Timer::Tcr1 => 0,
        Timer::Tcr2 => 1,
    }
}

// Initialised, and of this kind.
pub fn set_up(s: &mut Words, c: ChannelNumber, kind: Timer)
    ensures { state_in s.new ≡ with_set_up (state_in s.old) c.number kind }
{
    let at = layout::FLAGS + c.number as usize;
    s[at] = bitfield::put_in(bitfield::with_bit(s[at], 0, true), 1, 5, timer_number(kind));
}

// A request binds the group of c, by the timer of that channel's kind.
pub fn bind(s: &mut Words, c: ChannelNumber)
    ensures { state_in s.new ≡ with_binding (state_in s.old) c.number }
{
    let at = layout::FLAGS + c.number as usize;
    let f = s[at];
    s[at] = bitfield::put_in(bitfield::with_bit(f, 6, bitfield::bit(f, 5)), 2, 3, 1);
}

// At rest; the direction stays.
pub fn rest(s: &mut Words, c: ChannelNumber)
    ensures { state_in s.new ≡ with_phase (state_in s.old) c.number (channel (state_in s.old) c.number).way Resting }
{
    let at = layout::FLAGS + c.number as usize;
    s[at] = bitfield::put_in(s[at], 2, 3, 0);
}

fn way_number(w: Way) -> u16
    ensures { result ≡ way_number w }
{
    match w {
        Way::Right => 0,
        Way::Left => 1,
    }
}

// The flags with this direction and the number of a phase.
fn standing(flags: u16, way: Way, number: u16) -> u16
    ensures { result ≡ with_field 2 (with_field 1 flags 2 (way_number way)) 3 number }
{
    bitfield::put_in(bitfield::put_in(flags, 1, 2, way_number(way)), 2, 3, number)
}

// A match is set for a time.
pub fn arm(s: &mut Words, c: ChannelNumber, way: Way, time: u16)
    ensures { state_in s.new ≡ with_phase (state_in s.old) c.number way (Armed time) }
{
    let at = layout::FLAGS + c.number as usize;
    s[at] = standing(s[at], way, 2);
    s[layout::TIMES + c.number as usize] = time;
}

// The match set for a time has happened, at the captured time.
pub fn happen(s: &mut Words, c: ChannelNumber, way: Way, captured: u16, time: u16)
    ensures { state_in s.new ≡ with_phase (state_in s.old) c.number way (Matched captured time) }
{
    let at = layout::FLAGS + c.number as usize;
    s[at] = standing(s[at], way, 3);
    s[layout::TIMES + c.number as usize] = captured;
    s[layout::SET_TIMES + c.number as usize] = time;
}
