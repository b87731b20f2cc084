// From counts to the two words.
ghost use Rattle.std.specs.Prelude.{◌≡◌, ◌≤◌};
ghost use Rattle.sheet.specs.Numbers.{InOrder};
ghost use Rattle.ramp.specs.Sheet.{slope, words_of, steps_of, ends_of};

use crate::{CannotRun, Controls};

// By the counts of the slowest period and of the difference.
#[tactic(auto, unfolding(crate::specs::Sheet::steps_of, words::specs::Choice::ask))]
pub fn steps(first: Option<u16>, difference: Option<u16>, n: u8) -> Result<Controls, CannotRun>
    ensures { result ≡ steps_of first difference n }
{
    let p = first.ok_or(CannotRun)?;
    let d = difference.ok_or(CannotRun)?;
    if p < 1 {
        return Err(CannotRun);
    }
    words(p, d, n)
}

// By the counts of the periods at both ends. The speeds being in order, so are these.
#[tactic(auto, unfolding(crate::specs::Sheet::ends_of, words::specs::Choice::ask))]
pub fn ends(first: Option<u16>, last: Option<u16>, n: u8) -> Result<Controls, CannotRun>
    requires { InOrder first last }
    ensures { result ≡ ends_of first last n }
{
    let slowest = first.ok_or(CannotRun)?;
    let fastest = last.ok_or(CannotRun)?;
    if slowest < 1 || fastest < 1 {
        return Err(CannotRun);
    }
    words(slowest, slope(slowest, fastest, n), n)
}

// STEP_CNTL0 for the periods p at rate 1 and q at rate n.
#[tactic(auto, unfolding(crate::specs::Sheet::slope, nearest::specs::Counting::half_up))]
fn slope(p: u16, q: u16, n: u8) -> u16
    requires { q ≤ p }
    ensures { result ≡ slope p q n }
{
    if n <= 1 {
        return 0;
    }
    let rates = n as u32 - 1;
    let fall = p as u32 - q as u32;
    ((2 * fall + rates) / (2 * rates)) as u16
}

// From P(1) and STEP_CNTL0, if the gate takes them.
#[tactic(auto, unfolding(crate::specs::Sheet::words_of, words::specs::Choice::ask))]
fn words(p: u16, cntl0: u16, n: u8) -> Result<Controls, CannotRun>
    ensures { result ≡ words_of p cntl0 n }
{
    let sum = p as u32 + 2 * (cntl0 as u32);
    let cntl1 = u16::try_from(sum).map_err(|_| CannotRun)?;
    if !questions::ramp_good(cntl0, cntl1, n as u16) {
        return Err(CannotRun);
    }
    Ok(Controls {
        step_cntl0: cntl0,
        step_cntl1: cntl1,
    })
}
