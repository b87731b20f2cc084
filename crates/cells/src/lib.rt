// The parts of the state that lent words hold, read where they stand.
#![tactic(auto)]

mod decode;

ghost use Rattle.std.specs.Prelude.{◌≡◌, ◌<◌};
ghost use Rattle.unit.specs.TheUnit.{word, reg, channel};
ghost use Rattle.pack.specs.Packing.{state_in};

use motor::{Phase, Way};
pub use pack::reading::{pins, slots, timers};
use pack::{ChannelNumber, Words, layout};
use words::Timer;

// Word i of channel c.
pub fn word(s: &Words, c: ChannelNumber, i: u16) -> u16
    requires word { i < 8 }
    ensures { result ≡ word (state_in s.now) c.number i }
{
    s[8 * (c.number as usize) + i as usize]
}

pub fn reg(s: &Words, i: u16) -> u16
    requires { i < 12 }
    ensures { result ≡ reg (state_in s.now) i }
{
    s[layout::REGS + i as usize]
}

pub fn initialised(s: &Words, c: ChannelNumber) -> bool
    ensures { result ≡ (channel (state_in s.now) c.number).initialised }
{
    bitfield::bit(s[layout::FLAGS + c.number as usize], 0)
}

pub fn level(s: &Words, c: ChannelNumber) -> bool
    ensures { result ≡ (channel (state_in s.now) c.number).level }
{
    bitfield::bit(s[layout::FLAGS + c.number as usize], 1)
}

pub fn way(s: &Words, c: ChannelNumber) -> Way
    ensures { result ≡ (channel (state_in s.now) c.number).way }
{
    decode::way_from(bitfield::bit(s[layout::FLAGS + c.number as usize], 2))
}

pub fn phase(s: &Words, c: ChannelNumber) -> Phase
    ensures { result ≡ (channel (state_in s.now) c.number).phase }
{
    let at = c.number as usize;
    let number = decode::phase_number(s[layout::FLAGS + at]);
    decode::phase_from(number, s[layout::TIMES + at], s[layout::SET_TIMES + at])
}

pub fn kind(s: &Words, c: ChannelNumber) -> Timer
    ensures { result ≡ (channel (state_in s.now) c.number).kind }
{
    decode::timer_from(bitfield::bit(s[layout::FLAGS + c.number as usize], 5))
}

pub fn timer(s: &Words, c: ChannelNumber) -> Timer
    ensures { result ≡ (channel (state_in s.now) c.number).timer }
{
    decode::timer_from(bitfield::bit(s[layout::FLAGS + c.number as usize], 6))
}

pub fn late(s: &Words, c: ChannelNumber) -> u16
    ensures { result ≡ (channel (state_in s.now) c.number).late }
{
    s[layout::LATES + c.number as usize]
}
