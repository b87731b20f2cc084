// A read, a write and the interrupt line on the words that a caller lends, made where the words stand.
#![tactic(auto)]

ghost use Rattle.std.specs.Prelude.{◌≡◌, ◌%◌, ◌<◌, ◌≤◌};
ghost use Rattle.words.specs.Choice.{pick};
ghost use Rattle.unit.specs.TheUnit.{each, interrupt_line};
ghost use Rattle.unit.specs.Gate.{place, Reads, in_list, gate, requested_one, stored, done};
ghost use Rattle.unit.specs.Calls.{word_at, read_of, write_of};
ghost use Rattle.unit.specs.Answers.{reading_number, reading_word, verdict_number, answer_number};
ghost use Rattle.pack.specs.Packing.{state_in};
ghost use Rattle.deeds.specs.Good.{DeedGood};

use pack::{ChannelNumber, Words};
use unit::{Deed, Place, Refusal, State};

// A word by its place among all. A write to CHANNEL_CONTROL makes its channel uninitialised.
fn stored(s: &mut Words, at: u16, v: u16)
    requires { at < 128 }
    ensures { state_in s.new ≡ stored (state_in s.old) at v }
{
    let c = ChannelNumber { number: at / 8 };
    stores::put_word(s, c, at % 8, v);
    if at % 8 == 0 {
        stores::uninitialise(s, c);
    }
}

// The requests of the word v for the eight channels from a on.
fn requested_all(s: &mut Words, a: u16, v: u16)
    requires { a ≤ 8 }
    ensures { state_in s.new ≡ each 8 a (requested_one v) (state_in s.old) }
{
    for k in 0..8 {
        let r = bitfield::pair(v, a + k);
        if 2 <= r {
            binding::requested(s, ChannelNumber { number: a + k }, r);
        }
    }
}

// The same, at once where one channel alone is asked.
fn requested_word(s: &mut Words, a: u16, v: u16)
    requires most { a ≤ 8 }
    requires eights { a % 8 ≡ 0 }
    ensures { state_in s.new ≡ each 8 a (requested_one v) (state_in s.old) }
{
    match binding::lone(v) {
        Some(k) => binding::requested(s, ChannelNumber { number: a + k }, bitfield::pair(v, k)),
        None => requested_all(s, a, v),
    }
}

// Carries out a deed of the gate.
fn done(s: &mut Words, d: Deed)
    requires { DeedGood d }
    ensures { state_in s.new ≡ done d (state_in s.old) }
{
    match d {
        Deed::Nothing => {}
        Deed::Parameter(at, v) => stored(s, at, v),
        Deed::Register(i, v) => stores::put_reg(s, i, v),
        Deed::Keep(v) => {
            let kept = cells::reg(s, State::CISR) & v;
            stores::put_reg(s, State::CISR, kept);
        }
        Deed::Request(a, v) => requested_word(s, a as u16, v),
    }
}

// A refused write leaves the words as they were.
#[tactic(auto, unfolding(unit::specs::Calls::write_of, unit::specs::Calls::answered_by, unit::specs::Answers::answer_number, unit::specs::Answers::verdict_number))]
pub fn write(s: &mut Words, address: u16, value: u16) -> Result<(), Refusal>
    ensures answer { result ≡ (write_of (state_in s.old) address value).answer }
    ensures state { state_in s.new ≡ (write_of (state_in s.old) address value).state }
    ensures number { answer_number result ≡ verdict_number (gate (state_in s.old) address value) }
{
    let deed = gate::verdict(s, address, value)?;
    done(s, deed);
    Ok(())
}

// The word at an address. A word that a channel lacks reads as 0.
pub fn read(s: &Words, address: u16) -> Result<u16, Refusal>
    ensures reading { result ≡ read_of (state_in s.now) address }
    ensures number { reading_number result ≡ pick (in_list Reads address) 0 1 }
    ensures word { reading_word result ≡ pick (in_list Reads address) (word_at (state_in s.now) (place address)) 0 }
{
    match gate::place(address) {
        Place::AtRegister(i) => Ok(cells::reg(s, i)),
        Place::AtWord(c, i) => {
            if !fields::exists(c, i) {
                return Ok(0);
            }
            Ok(cells::word(s, ChannelNumber { number: c }, i))
        }
        Place::AtLate(c) => Ok(cells::late(s, ChannelNumber { number: c })),
        Place::Nowhere => Err(Refusal::NoSuchAddress),
    }
}

// Some channel has its bit both in CIER and in CISR.
pub fn interrupt_line(s: &Words) -> bool
    ensures { result ≡ interrupt_line (state_in s.now) }
{
    cells::reg(s, State::CIER) & cells::reg(s, State::CISR) != 0
}
