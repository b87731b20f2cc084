// What the numbers of a channel stand for.
ghost use Rattle.std.specs.Prelude.{◌≡◌};
ghost use Rattle.words.specs.Field.{field};
ghost use Rattle.unit.specs.TheUnit.{way_from, timer_from, phase_from};

use motor::{Phase, Way};
use words::Timer;

pub fn way_from(left: bool) -> Way
    ensures { result ≡ way_from left }
{
    if left { Way::Left } else { Way::Right }
}

pub fn timer_from(second: bool) -> Timer
    ensures { result ≡ timer_from second }
{
    if second { Timer::Tcr2 } else { Timer::Tcr1 }
}

// The number of the phase in a word of flags.
pub fn phase_number(flags: u16) -> u16
    ensures { result ≡ field 2 flags 3 }
{
    (flags >> 3) & 3
}

pub fn phase_from(number: u16, time: u16, set: u16) -> Phase
    ensures { result ≡ phase_from number time set }
{
    match number {
        1 => Phase::Requested,
        2 => Phase::Armed(time),
        3 => Phase::Matched(time, set),
        _ => Phase::Resting,
    }
}
