// Which channels are ready, a word for each level.
ghost use Rattle.std.specs.Prelude.{◌≡◌, ◌+◌, ◌<◌, true};
ghost use Rattle.pack.specs.Packing.{state_in};
ghost use Rattle.tick.specs.Ready.{pends, pending_below, noted, asked, ready_below};

use channel::pending;
use pack::{ChannelNumber, Words};
use slots::Ready;

// Most channels have nothing to be served, so this is asked first.
fn pends(s: &Words, c: ChannelNumber) -> bool
    ensures { result ≡ pends (state_in s.now) c.number }
{
    2 <= registers::request(s, c) || pending::is_matched(cells::phase(s, c))
}

// Channel c is ready at this level.
fn noted(mut w: Ready, c: u16, level: u16) -> Ready
    ensures { result ≡ noted w c level }
{
    match level {
        3 => w.high = bitfield::with_bit(w.high, c, true),
        2 => w.middle = bitfield::with_bit(w.middle, c, true),
        _ => w.low = bitfield::with_bit(w.low, c, true),
    }
    w
}

// Channel c, which has something to be served, is noted where it is enabled.
fn asked(s: &Words, c: ChannelNumber, w: Ready) -> Ready
    requires { pends (state_in s.now) c.number ≡ true }
    ensures { result ≡ asked (state_in s.now) c.number w }
{
    let level = registers::priority(s, c);
    if level == 0 {
        w
    } else {
        noted(w, c.number, level)
    }
}

// Channel c more in a word that has a bit for each channel with something to be served.
fn marked(s: &Words, c: ChannelNumber, w: u16) -> u16
    requires { w ≡ pending_below c.number (state_in s.now) }
    ensures { result ≡ pending_below (c.number + 1) (state_in s.now) }
{
    if pends(s, c) {
        bitfield::with_bit(w, c.number, true)
    } else {
        w
    }
}

// By halves: the requests of each stand in one word.
fn low_half(s: &Words) -> u16
    ensures { result ≡ pending_below 8 (state_in s.now) }
{
    let mut w = 0;
    for c in 0..8 {
        w = marked(s, ChannelNumber { number: c }, w);
    }
    w
}

fn pending_word(s: &Words) -> u16
    ensures { result ≡ pending_below 16 (state_in s.now) }
{
    let mut w = low_half(s);
    for c in 8..16 {
        w = marked(s, ChannelNumber { number: c }, w);
    }
    w
}

// Mostly none or one has anything, so the word is gone through by its bits that are set.
pub fn ready(s: &Words) -> Ready
    ensures { result ≡ ready_below 16 (state_in s.now) }
{
    let mut w = Ready {
        high: 0,
        middle: 0,
        low: 0,
    };
    let mut rest = pending_word(s);
    let mut c = 0;
    while rest != 0 {
        let k = u16::trailing_zeros(rest) as u16;
        w = asked(s, ChannelNumber { number: c + k }, w);
        rest = rest >> k >> 1;
        c = c + k + 1;
    }
    w
}
