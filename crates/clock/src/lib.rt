// The 16-bit timers: a match time is made by a wrapping add, and a wrapping subtract tells whether the timer has passed it.
#![tactic(auto)]

ghost use Rattle.std.specs.Prelude.{◌≡◌};
ghost use Rattle.words.specs.Clock.{since, past, later, time_by, onward, ticks_until};

use words::{Past, Timer, Timers};

// How far a timer that shows `now` is past `time`.
#[tactic(auto, unfolding(words::specs::Clock::since))]
pub fn since(now: u16, time: u16) -> u16
    ensures { result ≡ since now time }
{
    now.wrapping_sub(time)
}

// The test for a match set for `time`, at `now`.
pub fn past(now: u16, time: u16) -> Past
    ensures { result ≡ past now time }
{
    let counts = since(now, time);
    Past {
        counts,
        due: counts < 0x8000,
    }
}

// The time `count` after `time`: a match time, or what a timer shows so many counts on.
#[tactic(auto, unfolding(words::specs::Clock::later))]
pub fn later(time: u16, count: u16) -> u16
    ensures { result ≡ later time count }
{
    time.wrapping_add(count)
}

// The time by a timer.
#[tactic(auto, unfolding(words::specs::Clock::time_by))]
pub fn time_by(timer: Timer, timers: Timers) -> u16
    ensures { result ≡ time_by timer timers }
{
    match timer {
        Timer::Tcr1 => timers.tcr1,
        Timer::Tcr2 => timers.tcr2,
    }
}

// Both timers n ticks on.
#[tactic(auto, unfolding(words::specs::Clock::onward))]
pub fn onward(n: u16, timers: Timers) -> Timers
    ensures { result ≡ onward n timers }
{
    let eighths = (u32::from(timers.tcr1 % 8) + u32::from(n)) / 8;
    Timers {
        tcr1: later(timers.tcr1, n),
        tcr2: later(timers.tcr2, eighths as u16),
    }
}

// In how many ticks the timer has gone on by `count`.
#[tactic(auto, unfolding(words::specs::Clock::ticks_until, words::specs::Clock::ticks_a_count))]
pub fn ticks_until(timer: Timer, timers: Timers, count: u16) -> u32
    ensures { result ≡ ticks_until timer timers count }
{
    match timer {
        Timer::Tcr1 => u32::from(count),
        Timer::Tcr2 => {
            let over = u32::from(timers.tcr1 % 8);
            (8 * u32::from(count)).saturating_sub(over)
        }
    }
}
