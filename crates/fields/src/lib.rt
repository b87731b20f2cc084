// The fields of the parameter words, of the state that lent words hold.
#![tactic(auto)]

ghost use Rattle.std.specs.Prelude.{◌≡◌, suc, ◌+◌, ◌-◌, ◌≤◌, ◌<◌};
ghost use Rattle.words.specs.Field.{field};
ghost use Rattle.unit.specs.TheUnit.{exists, mod_count, next_rate, top, last, word, cntl0, cntl1, size};
ghost use Rattle.pack.specs.Packing.{state_in};

use pack::{ChannelNumber, Words};

// The last two channels have two words more than the others.
pub fn exists(c: u16, i: u16) -> bool
    ensures { result ≡ exists c i }
{
    14 <= c || i < 6
}

pub fn mod_count(s: &Words, c: ChannelNumber) -> u16
    ensures count { result ≡ mod_count (state_in s.now) c.number }
    ensures nibble { result < 16 }
{
    bitfield::nibble(cells::word(s, c, 4), 2)
}

pub fn next_rate(s: &Words, c: ChannelNumber) -> u16
    ensures { result ≡ next_rate (state_in s.now) c.number }
{
    bitfield::nibble(cells::word(s, c, 4), 0)
}

// N, the highest rate.
pub fn top(s: &Words, c: ChannelNumber) -> u16
    ensures { result ≡ top (state_in s.now) c.number }
{
    bitfield::nibble(cells::word(s, c, 5), 2)
}

// LAST_SEC_CHAN.
pub fn last(s: &Words, c: ChannelNumber) -> u16
    ensures { result ≡ last (state_in s.now) c.number }
{
    bitfield::nibble(cells::word(s, c, 5), 0)
}

// A word of the channel after c, 0 where there is none.
fn word_after(s: &Words, c: ChannelNumber, i: u16) -> u16
    requires word { i < 8 }
    ensures { result ≡ word (state_in s.now) (suc c.number) i }
{
    if c.number < 15 {
        cells::word(
            s,
            ChannelNumber {
                number: c.number + 1,
            },
            i,
        )
    } else {
        0
    }
}

// STEP_CNTL0, which stands in the channel after the primary.
pub fn cntl0(s: &Words, c: ChannelNumber) -> u16
    ensures { result ≡ cntl0 (state_in s.now) c.number }
{
    word_after(s, c, 2)
}

// STEP_CNTL1, beside it.
pub fn cntl1(s: &Words, c: ChannelNumber) -> u16
    ensures { result ≡ cntl1 (state_in s.now) c.number }
{
    word_after(s, c, 3)
}

// How many channels the group of c has, its word 5 being w.
fn size_in(w: u16, c: u16) -> u16
    ensures { result ≡ suc (field 4 w 0) - c }
{
    let l = bitfield::nibble(w, 0);
    if c <= l { l - c + 1 } else { 0 }
}

// They are channels of the unit.
pub fn size(s: &Words, c: ChannelNumber) -> u16
    ensures size { result ≡ size (state_in s.now) c.number }
    ensures inside { c.number + result ≤ 16 }
{
    size_in(cells::word(s, c, 5), c.number)
}
