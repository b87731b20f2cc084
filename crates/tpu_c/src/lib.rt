// The calls of the timer unit for C. The caller lends the words that hold the state; answers are numbers.
#![tactic(auto)]

ghost use Rattle.std.specs.Prelude.{◌≡◌, ◌<◌};
ghost use Rattle.unit.specs.TheUnit.{reset_state};
ghost use Rattle.unit.specs.Answers.{reading_number, reading_word, answer_number};
ghost use Rattle.tpu.specs.Refusals.{Refusals};
ghost use Rattle.pack.specs.Packing.{state_words, packed, zeros, laid, unpacked};
ghost use Rattle.tpu_c.specs.Numbers.{reset_answer, read_answer, read_word, joined, write_answer, write_words, write_state, advance_answer, advance_words, advance_state, advance_pins, line_answer};

use pack::layout;
use unit::Refusal;

// The answer where the lent words are not as many as hold a state. No question of the gate has this number.
const WRONG_LENGTH: u16 = 100;

// How many words a state takes.
#[unsafe(no_mangle)]
pub extern "C" fn tpu_sm_state_words() -> u32
    ensures { result ≡ state_words }
{
    layout::WORDS as u32
}

// The words hold the state after reset, which is all zeros.
#[unsafe(no_mangle)]
pub extern "C" fn tpu_sm_reset(state: &mut [u16]) -> u16
    ensures answer { result ≡ reset_answer state.old }
    ensures words { state.new ≡ laid reset_state state.old }
    ensures zeros { packed reset_state ≡ zeros }
{
    if state.len() != layout::WORDS {
        return WRONG_LENGTH;
    }
    state.fill(0);
    0
}

#[tactic(auto, unfolding(unit::specs::Answers::reading_number, unit::specs::Answers::reading_word, crate::specs::Numbers::joined))]
fn both_halves(r: Result<u16, Refusal>) -> u32
    ensures halves { result ≡ joined (reading_number r) (reading_word r) }
    ensures word { reading_word r < 65536 }
{
    match r {
        Ok(w) => u32::from(w),
        Err(refusal) => u32::from(refusal.number()) * 65536,
    }
}

// The answer's number in the high half, 0 where the read is taken, and the word in the low half.
#[unsafe(no_mangle)]
pub extern "C" fn tpu_sm_read(state: &[u16], address: u16) -> u32
    ensures halves { result ≡ joined (read_answer state.now address) (read_word state.now address) }
    ensures word { read_word state.now address < 65536 }
{
    let Some(words) = state.as_array() else {
        return WRONG_LENGTH as u32 * 65536;
    };
    both_halves(deeds::read(words, address))
}

#[tactic(auto, unfolding(unit::specs::Answers::answer_number))]
fn number(a: Result<(), Refusal>) -> u16
    ensures { result ≡ answer_number a }
{
    match a {
        Ok(()) => 0,
        Err(refusal) => u16::from(refusal.number()),
    }
}

// 0 where the write is taken, else the number of the question that refused it.
#[unsafe(no_mangle)]
pub extern "C" fn tpu_sm_write(state: &mut [u16], address: u16, value: u16) -> u16
    ensures answer { result ≡ write_answer state.old address value }
    ensures words { state.new ≡ write_words state.old address value }
    ensures state { unpacked state.new ≡ write_state state.old address value }
{
    let Some(words) = state.as_mut_array() else {
        return WRONG_LENGTH;
    };
    number(deeds::write(words, address, value))
}

// n ticks, the pin word after each in the first n words of the list. Refused: neither list changes.
#[unsafe(no_mangle)]
pub extern "C" fn tpu_sm_advance(state: &mut [u16], n: u32, pins: &mut [u16]) -> u16
    ensures answer { result ≡ advance_answer state.old n pins.old }
    ensures words { state.new ≡ advance_words state.old n pins.old }
    ensures state { unpacked state.new ≡ advance_state state.old n pins.old }
    ensures pins { pins.new ≡ advance_pins state.old n pins.old }
{
    let Some(words) = state.as_mut_array() else {
        return WRONG_LENGTH;
    };
    number(ticks::advance(words, n, pins))
}

// 1 where the interrupt line is up.
#[unsafe(no_mangle)]
pub extern "C" fn tpu_sm_interrupt_line(state: &[u16]) -> u16
    ensures { result ≡ line_answer state.now }
{
    let Some(words) = state.as_array() else {
        return WRONG_LENGTH;
    };
    u16::from(deeds::interrupt_line(words))
}

// About every answer: a refusal has the number of a question, so 0 means taken, and only the length gives 100.
pub fn refusals()
    ensures { Refusals }
{}
