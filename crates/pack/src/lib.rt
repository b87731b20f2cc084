// The state by value into words that a caller lends, and back.
#![tactic(auto)]

mod channel;
mod laying;
pub mod layout;
pub mod reading;

ghost use Rattle.std.specs.Prelude.{◌≡◌};
ghost use Rattle.pack.specs.Packing.{state_in};

pub use channel::ChannelNumber;
use unit::State;

// The words that hold a state.
pub type Words = [u16; layout::WORDS];

pub fn unpack(s: &Words) -> State
    ensures { result ≡ state_in s.now }
{
    let mut words = [0u16; 128];
    words.copy_from_slice(&s[..layout::REGS]);
    let mut regs = [0u16; 12];
    regs.copy_from_slice(&s[layout::REGS..layout::TCR1]);
    State {
        words,
        regs,
        timers: reading::timers(s),
        pins: reading::pins(s),
        channels: reading::channels_in(s),
        slots: reading::slots(s),
    }
}

pub fn pack(st: State, s: &mut Words)
    ensures { state_in s.new ≡ st }
{
    laying::lay_channels(st.channels, s);
    laying::lay_row(&st.words, s, 0);
    laying::lay_row(&st.regs, s, layout::REGS);
    let timers = [st.timers.tcr1, st.timers.tcr2, st.pins];
    laying::lay_row(&timers, s, layout::TCR1);
    let slots = [st.slots.slot, st.slots.high, st.slots.middle, st.slots.low];
    laying::lay_row(&slots, s, layout::SLOTS);
}
