// The numbers of a motor sheet: which are taken, and their counts.
#![tactic(auto)]

ghost use Rattle.std.specs.Prelude.{◌≡◌};
ghost use Rattle.sheet.specs.Numbers.{is_rate_count, is_positive, is_difference, is_speedup, period_count, speed_count};

// N is one that STEP_RATE_CNT may have.
#[tactic(auto, unfolding(crate::specs::Numbers::is_rate_count))]
pub fn is_rate_count(n: u8) -> bool
    ensures { result ≡ is_rate_count n }
{
    1 <= n && n as u16 <= unit::State::MAX_RATE
}

// Finite and above zero.
#[tactic(auto, unfolding(crate::specs::Numbers::is_positive))]
pub fn is_positive(x: f64) -> bool
    ensures { result ≡ is_positive x }
{
    0.0 < x && x < f64::INFINITY
}

// Finite and not below zero: -0.0 is zero.
#[tactic(auto, unfolding(crate::specs::Numbers::is_difference))]
pub fn is_difference(x: f64) -> bool
    ensures { result ≡ is_difference x }
{
    0.0 <= x && x < f64::INFINITY
}

// The top speed is not below the slowest.
#[tactic(auto, unfolding(crate::specs::Numbers::is_speedup))]
pub fn is_speedup(slow: f64, fast: f64) -> bool
    ensures { result ≡ is_speedup slow fast }
{
    !(fast < slow)
}

// A period in milliseconds, in ticks.
#[tactic(auto, unfolding(crate::specs::Numbers::period_count))]
pub fn period_count(period: f64, tick: f64) -> Option<u16>
    ensures { result ≡ period_count period tick }
{
    nearest::nearest(period / tick)
}

// The period of a speed in steps a second, in ticks.
pub fn speed_count(speed: f64, tick: f64) -> Option<u16>
    ensures { result ≡ speed_count speed tick }
{
    period_count(1000.0 / speed, tick)
}
