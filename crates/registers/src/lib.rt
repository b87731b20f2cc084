// The fields of the registers, of the state that lent words hold.
#![tactic(auto)]

ghost use Rattle.std.specs.Prelude.{◌≡◌, ◌+◌, ◌-◌, ◌/◌, ◌<◌};
ghost use Rattle.unit.specs.TheUnit.{cfsr_of, function, request, with_request, priority};
ghost use Rattle.pack.specs.Packing.{state_in};

use pack::{ChannelNumber, Words};
use unit::State;

// The CFSR word of channel c.
fn cfsr_of(c: u16) -> u16
    requires { c < 16 }
    ensures word { result ≡ cfsr_of c }
    ensures register { result < 12 }
{
    State::CFSR3 - c / 4
}

// The word of channel c, of two of which the first, `upper`, is of channels 15 to 8 and the next one of those below.
fn half_of(c: u16, upper: u16) -> u16
    requires range { c < 16 }
    requires register { upper < 11 }
    ensures word { result ≡ upper + (1 - c / 8) }
    ensures register { result < 12 }
{
    if c < 8 { upper + 1 } else { upper }
}

pub fn function(s: &Words, c: ChannelNumber) -> u16
    ensures { result ≡ function (state_in s.now) c.number }
{
    bitfield::nibble(cells::reg(s, cfsr_of(c.number)), c.number)
}

// The pending request of a channel: 0 none, 2 initialise, 3 step.
pub fn request(s: &Words, c: ChannelNumber) -> u16
    ensures { result ≡ request (state_in s.now) c.number }
{
    bitfield::pair(cells::reg(s, half_of(c.number, State::HSRR0)), c.number)
}

pub fn put_request(s: &mut Words, c: ChannelNumber, r: u16)
    ensures { state_in s.new ≡ with_request (state_in s.old) c.number r }
{
    let i = half_of(c.number, State::HSRR0);
    let w = bitfield::with_pair(cells::reg(s, i), c.number, r);
    stores::put_reg(s, i, w);
}

// 0 is disabled, 1 low, 2 middle, 3 high.
pub fn priority(s: &Words, c: ChannelNumber) -> u16
    ensures { result ≡ priority (state_in s.now) c.number }
{
    bitfield::pair(cells::reg(s, half_of(c.number, State::CPR0)), c.number)
}
