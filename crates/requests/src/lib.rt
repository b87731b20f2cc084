// What is said of the requests of an HSRR word.
#![tactic(auto)]

mod channels;

ghost use Rattle.std.specs.Prelude.{◌≡◌, ◌≤◌, ◌%◌};
ghost use Rattle.unit.specs.Gate.{ask_channels};
ghost use Rattle.unit.specs.declared.State.{State};
ghost use Rattle.pack.specs.Packing.{state_in};
ghost use Rattle.requests.specs.Told.{told};

use pack::{ChannelNumber, Words};
use unit::Refusal;

// The requests of the word v for the eight channels from a on, tried on a copy.
fn tried(s: &Words, a: u16, v: u16) -> Result<(), Refusal>
    requires { a ≤ 8 }
    ensures { (t : State) × (told result t ≡ ask_channels 8 a v (state_in s.now)) }
{
    let mut t = *s;
    channels::ask_channels(&mut t, a, v)
}

// The same, without a copy where one channel alone is asked.
pub fn asked(s: &Words, a: u16, v: u16) -> Result<(), Refusal>
    requires most { a ≤ 8 }
    requires eights { a % 8 ≡ 0 }
    ensures { (t : State) × (told result t ≡ ask_channels 8 a v (state_in s.now)) }
{
    match binding::lone(v) {
        Some(k) => channels::ask_channel(s, ChannelNumber { number: a + k }, bitfield::pair(v, k)),
        None => tried(s, a, v),
    }
}
