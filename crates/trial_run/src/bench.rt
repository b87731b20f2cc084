// The board of the trials: channels 4 to 11 initialised, and a motor whose primary is channel 4. All of it by calls.
use unit::{Answered, State};

pub const CIER: u16 = 0xE0A;

const CFSR1: u16 = 0xE0E;

const CFSR2: u16 = 0xE10;

const HSRR0: u16 = 0xE18;

const HSRR1: u16 = 0xE1A;

const CPR0: u16 = 0xE1C;

const CPR1: u16 = 0xE1E;

pub const CISR: u16 = 0xE20;

// The words of channel 4, the primary, and the ramp in the channel after it.
pub const CHANNEL_CONTROL: u16 = 0xF40;

const PIN_CONTROL: u16 = 0xF42;

pub const POSITION: u16 = 0xF44;

pub const TARGET: u16 = 0xF46;

pub const RATE: u16 = 0xF48;

pub const GROUP: u16 = 0xF4A;

const STEP_CNTL0: u16 = 0xF54;

const STEP_CNTL1: u16 = 0xF56;

// What a trial sets before its request. `top` is STEP_RATE_CNT.
#[derive(Clone, Copy)]
pub struct Setting {
    top: u16,
    last: u16,
    cntl0: u16,
    cntl1: u16,
    from: u16,
    to: u16,
}

impl Setting {
    pub fn new(cntl0: u16, cntl1: u16, top: u16, from: u16, to: u16) -> Setting {
        Setting {
            top,
            last: 5,
            cntl0,
            cntl1,
            from,
            to,
        }
    }

    // With the ramp that the trials use unless they say otherwise.
    pub fn travel(from: u16, to: u16) -> Setting {
        Setting::new(20, 440, 3, from, to)
    }

    pub fn with_last(mut self, last: u16) -> Setting {
        self.last = last;
        self
    }

    // Word 5 of the primary.
    fn group(self) -> u16 {
        bitfield::with_nibble(bitfield::with_nibble(0, 2, self.top), 0, self.last)
    }
}

pub fn put(s: State, address: u16, value: u16) -> State {
    tpu::write(s, address, value).state
}

// The words put one after another, each an address and a value.
fn put_all(s: State, words: &[(u16, u16)]) -> State {
    let mut t = s;
    for (address, value) in words {
        t = put(t, *address, *value);
    }
    t
}

// The word at an address, 0 where the read is refused.
pub fn look(s: State, address: u16) -> u16 {
    tpu::read(s, address).unwrap_or(0)
}

// A tick for each of the eight channels.
fn served(s: State) -> State {
    let mut lent = [0u16; 8];
    tpu::advance(s, 8, &mut lent).state
}

// Reset, then functions and priorities of channels 4 to 11.
fn enabled() -> State {
    let words = [
        (CFSR1, 0xDDDD),
        (CFSR2, 0xDDDD),
        (CPR0, 0x0055),
        (CPR1, 0x5500),
    ];
    put_all(tpu::reset(), &words)
}

// The patterns of two neighbours, opposite to each other; `by` is how far the lower lies above channel 4.
fn wound(s: State, by: u16) -> State {
    let at = 16 * (by % 8);
    let words = [
        (PIN_CONTROL + at, 0xCCCC),
        (CHANNEL_CONTROL + at, 0x0081),
        (PIN_CONTROL + 16 + at, 0x3333),
        (CHANNEL_CONTROL + 16 + at, 0x0082),
    ];
    put_all(s, &words)
}

// Initialised, with the status bits of that cleared again.
fn board() -> State {
    let mut s = enabled();
    for by in [0, 2, 4, 6] {
        s = wound(s, by);
    }
    let asked = put_all(s, &[(HSRR0, 0x00AA), (HSRR1, 0xAA00)]);
    put(served(asked), CISR, 0)
}

// All that a trial sets, at rest.
pub fn ready(m: Setting) -> State {
    let words = [
        (POSITION, m.from),
        (TARGET, m.to),
        (RATE, 1),
        (GROUP, m.group()),
        (STEP_CNTL0, m.cntl0),
        (STEP_CNTL1, m.cntl1),
    ];
    put_all(board(), &words)
}

pub fn request(s: State) -> Answered {
    tpu::write(s, HSRR1, 0x0300)
}

// The answer to an initialise request of channel 4 with these two words.
pub fn initialise(pattern: u16, control: u16) -> Answered {
    let words = [(PIN_CONTROL, pattern), (CHANNEL_CONTROL, control)];
    tpu::write(put_all(enabled(), &words), HSRR1, 0x0200)
}
