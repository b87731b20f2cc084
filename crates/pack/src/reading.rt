// The state out of 211 words.
ghost use Rattle.std.specs.Prelude.{◌≡◌, ◌<◌};
ghost use Rattle.pack.specs.Packing.{tabulate, latches_in, state_in};

use crate::{Words, layout};
use slots::Slots;
use unit::Latches;
use words::Timers;

pub fn timers(s: &Words) -> Timers
    ensures { result ≡ (state_in s.now).timers }
{
    Timers {
        tcr1: s[layout::TCR1],
        tcr2: s[layout::TCR2],
    }
}

pub fn pins(s: &Words) -> u16
    ensures { result ≡ (state_in s.now).pins }
{
    s[layout::PINS]
}

pub fn slots(s: &Words) -> Slots
    ensures { result ≡ (state_in s.now).slots }
{
    Slots {
        slot: s[layout::SLOTS],
        high: s[layout::SLOTS + 1],
        middle: s[layout::SLOTS + 2],
        low: s[layout::SLOTS + 3],
    }
}

fn latches_in(s: &Words, i: usize) -> Latches
    requires { i < 16 }
    ensures { result ≡ latches_in s.now i }
{
    Latches {
        flags: s[layout::FLAGS + i],
        time: s[layout::TIMES + i],
        late: s[layout::LATES + i],
        set: s[layout::SET_TIMES + i],
    }
}

pub fn channels_in(s: &Words) -> [Latches; 16]
    ensures { result ≡ tabulate 16 (latches_in s.now) }
{
    let mut w = [Latches::NONE; 16];
    for i in 0..16 {
        w[i] = latches_in(s, i);
    }
    w
}
