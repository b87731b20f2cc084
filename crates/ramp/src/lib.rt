// A ramp from the motor maker's sheet, turned into STEP_CNTL0 and STEP_CNTL1.
#![tactic(auto)]

ghost use Rattle.std.specs.Prelude.{◌≡◌, true};
ghost use Rattle.sheet.specs.Numbers.{is_positive};
ghost use Rattle.words.specs.Choice.{pick};
ghost use Rattle.unit.specs.Gate.{ramp_good};
ghost use Rattle.ramp.specs.Sheet.{number_of, cntl0_of, cntl1_of, periods_of, speeds_of, counts_of};

use crate::counts::{ends, steps};

mod counts;

// What the sheet gives.
#[derive(Clone, Copy, PartialEq, Debug)]
pub enum Ramp {
    // milliseconds: the slowest period, and the difference between neighbours
    Periods(f64, f64),
    // steps a second: the slowest, and the fastest
    Speeds(f64, f64),
}

// The two words with which the motor runs the ramp.
#[derive(Clone, Copy, PartialEq, Eq, Debug)]
pub struct Controls {
    pub step_cntl0: u16,
    pub step_cntl1: u16,
}

// The refusal of a ramp that no two words run.
#[derive(Clone, Copy, PartialEq, Eq, Debug)]
pub struct CannotRun;

// The number that stands for the refusal in a reply.
const NUMBER: u8 = 11;

impl CannotRun {
    ghost use Rattle.ramp.specs.Sheet.{refusal_number};

    pub fn number(self) -> u8
        ensures { result ≡ refusal_number self }
    {
        NUMBER
    }
}

// The tick length is in milliseconds, n is STEP_RATE_CNT. The number is 0 where the gate takes the words that are answered, else 11.
#[tactic(auto, unfolding(crate::specs::Sheet::counts_of, words::specs::Choice::ask))]
pub fn from_sheet(ramp: Ramp, tick: f64, n: u8) -> Result<Controls, CannotRun>
    ensures counts { result ≡ counts_of ramp tick n }
    ensures number { number_of result ≡ pick (ramp_good (cntl0_of result) (cntl1_of result) n) 0 11 }
{
    if !sheet::is_rate_count(n) || !sheet::is_positive(tick) {
        return Err(CannotRun);
    }
    match ramp {
        Ramp::Periods(slow, difference) => periods(slow, difference, tick, n),
        Ramp::Speeds(slow, fast) => speeds(slow, fast, tick, n),
    }
}

#[tactic(auto, unfolding(crate::specs::Sheet::periods_of, words::specs::Choice::ask))]
fn periods(slowest: f64, difference: f64, tick: f64, n: u8) -> Result<Controls, CannotRun>
    ensures { result ≡ periods_of slowest difference tick n }
{
    if !sheet::is_positive(slowest) || !sheet::is_difference(difference) {
        return Err(CannotRun);
    }
    steps(
        sheet::period_count(slowest, tick),
        sheet::period_count(difference, tick),
        n,
    )
}

#[tactic(auto, unfolding(crate::specs::Sheet::speeds_of, words::specs::Choice::ask))]
fn speeds(slow: f64, fast: f64, tick: f64, n: u8) -> Result<Controls, CannotRun>
    requires { is_positive tick ≡ true }
    ensures { result ≡ speeds_of slow fast tick n }
{
    if !sheet::is_positive(slow) || !sheet::is_positive(fast) || !sheet::is_speedup(slow, fast) {
        return Err(CannotRun);
    }
    ends(
        sheet::speed_count(slow, tick),
        sheet::speed_count(fast, tick),
        n,
    )
}
