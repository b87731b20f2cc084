// The questions put for a channel, of the state that lent words hold. Question 2 is `binding::is_free`.
#![tactic(auto)]

ghost use Rattle.std.specs.Prelude.{◌≡◌, ◌+◌, ◌<◌, ◌&&◌, leb};
ghost use Rattle.unit.specs.TheUnit.{all, size, mod_count};
ghost use Rattle.unit.specs.Gate.{is_stepper, is_timed, may_initialise, otherwise_zero, span_good, is_ready, group_ready, shows_pattern, pattern_good, ramp_good, quick_good, target_good};
ghost use Rattle.pack.specs.Packing.{state_in};

use pack::{ChannelNumber, Words};
use unit::State;
use words::Timer;

// P(N) is at least so many counts of the group's timer.
const MIN_PERIOD: u16 = 128;

// Question 3.
pub fn is_stepper(s: &Words, c: ChannelNumber) -> bool
    ensures { result ≡ is_stepper (state_in s.now) c.number }
{
    registers::function(s, c) == State::STEPPER
}

// Bits 8 to 5 of CHANNEL_CONTROL say capture and match by TCR1, 0100, or by TCR2, 0111.
fn is_timed(control: u16) -> bool
    ensures { result ≡ is_timed control }
{
    let timing = bitfield::timing(control);
    timing == 4 || timing == 7
}

// Question 4: CHANNEL_CONTROL forces the pin to the level that PIN_CONTROL has first.
pub fn may_initialise(s: &Words, c: ChannelNumber) -> bool
    ensures { result ≡ may_initialise (state_in s.now) c.number }
{
    let control = cells::word(s, c, 0);
    let forced = if bitfield::bit(cells::word(s, c, 1), 15) {
        1
    } else {
        2
    };
    is_timed(control) && bitfield::pair(control, 0) == forced
}

// The two nibbles of words 4 and 5 that no field has are 0.
fn otherwise_zero(w: u16) -> bool
    ensures { result ≡ otherwise_zero w }
{
    bitfield::nibble(w, 3) == 0 && bitfield::nibble(w, 1) == 0
}

fn between(low: u16, n: u16, high: u16) -> bool
    ensures { result ≡ (leb low n && leb n high) }
{
    low <= n && n <= high
}

// Question 5.
pub fn span_good(s: &Words, c: ChannelNumber) -> bool
    ensures { result ≡ span_good (state_in s.now) c.number }
{
    otherwise_zero(cells::word(s, c, 5))
        && between(1, fields::top(s, c), State::MAX_RATE)
        && between(
            c.number + 1,
            fields::last(s, c),
            c.number + State::MAX_REACH,
        )
}

// What question 6 asks of each channel of a group whose primary is of this kind.
fn is_ready(s: &Words, kind: Timer, j: ChannelNumber) -> bool
    ensures { result ≡ is_ready (state_in s.now) kind j.number }
{
    is_stepper(s, j)
        && cells::initialised(s, j)
        && binding::is_free(s, j)
        && cells::kind(s, j) == kind
}

// Question 6.
pub fn group_ready(s: &Words, c: ChannelNumber) -> bool
    ensures { result ≡ group_ready (state_in s.now) c.number }
{
    let n = fields::size(s, c);
    let kind = cells::kind(s, c);
    (0..n).all(
        |k|
            requires { c.number + k < 16 }
        {
            is_ready(
                s,
                kind,
                ChannelNumber {
                    number: c.number + k,
                },
            )
        },
    )
}

// The channel j shows its PIN_CONTROL turned right by m places.
fn shows_pattern(s: &Words, m: u16, j: ChannelNumber) -> bool
    requires turn { m < 16 }
    ensures { result ≡ shows_pattern (state_in s.now) m j.number }
{
    cells::word(s, j, 0) == rotation::rotate(cells::word(s, j, 1), m)
}

// Each channel of the group shows its pattern turned by the primary's MOD_CNT.
fn group_shows(s: &Words, c: ChannelNumber) -> bool
    ensures { result ≡ all (size (state_in s.now) c.number) c.number (shows_pattern (state_in s.now) (mod_count (state_in s.now) c.number)) }
{
    let n = fields::size(s, c);
    let m = fields::mod_count(s, c);
    (0..n).all(
        |k|
            requires turn { m < 16 }
            requires channel { c.number + k < 16 }
        {
            shows_pattern(
                s,
                m,
                ChannelNumber {
                    number: c.number + k,
                },
            )
        },
    )
}

// Question 7.
pub fn pattern_good(s: &Words, c: ChannelNumber) -> bool
    ensures { result ≡ pattern_good (state_in s.now) c.number }
{
    otherwise_zero(cells::word(s, c, 4)) && fields::next_rate(s, c) == 1 && group_shows(s, c)
}

// Question 8.
pub fn ramp_good(cntl0: u16, cntl1: u16, n: u16) -> bool
    ensures { result ≡ ramp_good cntl0 cntl1 n }
{
    1 <= step::period(cntl0, cntl1, n) && step::period(cntl0, cntl1, 1) <= State::MAX_PERIOD
}

// Question 14, straight after it: however late a match is served, the next one is still to come.
pub fn quick_good(cntl0: u16, cntl1: u16, n: u16) -> bool
    ensures { result ≡ quick_good cntl0 cntl1 n }
{
    MIN_PERIOD <= step::period(cntl0, cntl1, n)
}

// Question 9.
pub fn target_good(s: &Words, c: ChannelNumber, t: u16) -> bool
    ensures { result ≡ target_good (state_in s.now) c.number t }
{
    t <= State::LAST_POSITION - fields::top(s, c)
}
