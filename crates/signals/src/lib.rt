// The values of what is shown of a state, put on a page.
#![tactic(auto)]

ghost use Rattle.std.specs.Prelude.{◌≡◌, ◌<◌, option_map, Some};
ghost use Rattle.text.specs.Placing.{Wrote};
ghost use Rattle.pack.specs.Packing.{state_in};
ghost use Rattle.signals.specs.Signals.{position_of, binary, vector, wire_value, vector_value, pin_values, position_values, values};

use pack::{ChannelNumber, Words, layout};
use text::Page;
use unit::State;

// All values of a state, or those that differ from an old one's.
pub fn values(page: &mut Page, old: Option<State>, s: State)
    ensures { Wrote page.old (values old s) page.new }
{
    let words = words_of(s);
    match old {
        Some(o) => values_in(page, Some(&words_of(o)), &words),
        None => values_in(page, None, &words),
    }
}

// The same of the states that words hold: read in place, since a state is dear to copy.
fn values_in(page: &mut Page, old: Option<&Words>, words: &Words)
    ensures { Wrote page.old (values (option_map (λ o. state_in o.now) old.entry) (state_in words.now)) page.new }
{
    let old_pins = old.map(|o| cells::pins(o));
    let new_pins = cells::pins(words);
    pins(page, old_pins, new_pins);
    let old_tcr1 = old.map(|o| Some(cells::timers(o).tcr1));
    let timers = cells::timers(words);
    vector_value(page, old_tcr1, Some(timers.tcr1), b'!');
    positions(page, old, words);
    let old_line = old.map(|o| deeds::interrupt_line(o));
    wire_value(page, old_line, deeds::interrupt_line(words), b'"');
}

fn words_of(s: State) -> Words
    ensures { state_in result ≡ s }
{
    let mut words = [0; layout::WORDS];
    pack::pack(s, &mut words);
    words
}

fn pins(page: &mut Page, old: Option<u16>, pins: u16)
    ensures { Wrote page.old (pin_values 16 old pins) page.new }
{
    for c in 0..16 {
        let old_pin = old.map(|o| bitfield::bit(o, c));
        wire_value(page, old_pin, bitfield::bit(pins, c), b'a' + c as u8);
    }
}

// The words of both states are lent.
fn positions(page: &mut Page, old: Option<&Words>, words: &Words)
    ensures { Wrote page.old (position_values 16 (option_map (λ o. state_in o.now) old.entry) (state_in words.now)) page.new }
{
    for c in 0..16 {
        let old_position = old.map(
            |o|
                requires { c < 16 }
            { position_of(o, ChannelNumber { number: c }) },
        );
        vector_value(
            page,
            old_position,
            position_of(words, ChannelNumber { number: c }),
            b'A' + c as u8,
        );
    }
}

// A wire's value, unless it is the old one.
fn wire_value(page: &mut Page, old: Option<bool>, on: bool, id: u8)
    ensures { Wrote page.old (wire_value old on id) page.new }
{
    if old == Some(on) {
        return;
    }
    printing::decimal(page, u64::from(on));
    page.text(&[id, b'\n']);
}

// A vector's value, unless it is the old one.
fn vector_value(page: &mut Page, old: Option<Option<u16>>, value: Option<u16>, id: u8)
    ensures { Wrote page.old (vector_value old value id) page.new }
{
    if old == Some(value) {
        return;
    }
    vector(page, value);
    page.text(&[b' ', id, b'\n']);
}

fn vector(page: &mut Page, value: Option<u16>)
    ensures { Wrote page.old (vector value) page.new }
{
    match value {
        Some(w) => {
            page.put(b'b');
            binary(page, w);
        }
        None => page.text(b"bx"),
    }
}

// Sixteen binary digits, the highest first.
fn binary(page: &mut Page, w: u16)
    ensures { Wrote page.old (binary 16 w) page.new }
{
    for k in 0..16 {
        printing::decimal(page, u64::from(bitfield::bit(w, 15 - k)));
    }
}

// The position of a bound primary.
#[tactic(auto, unfolding(crate::specs::Signals::position_of, unit::specs::TheUnit::position))]
fn position_of(words: &Words, c: ChannelNumber) -> Option<u16>
    ensures { result ≡ position_of (state_in words.now) c.number }
{
    binding::stepping(words, c).then(|| cells::word(words, c, 2))
}
