// One tick, in lent words: the timers and the slot, then the matches, then the service of one channel.
#![tactic(auto)]

mod ready;

ghost use Rattle.std.specs.Prelude.{◌≡◌};
ghost use Rattle.slots.specs.Slots.{chosen};
ghost use Rattle.unit.specs.OneTick.{slot_served, tick};
ghost use Rattle.unit.specs.Pending.{asks_of};
ghost use Rattle.pack.specs.Packing.{state_in};

use pack::{ChannelNumber, Words};

// The channel that the slot goes to, if any is ready.
fn serve_next(s: &mut Words)
    ensures { state_in s.new ≡ slot_served (chosen (state_in s.old).slots (asks_of (state_in s.old))) (state_in s.old) }
{
    let slots = cells::slots(s);
    if let Some(next) = slots::choose(slots, ready::ready(s)) {
        stores::put_slots(s, next.slots);
        service::serve(
            s,
            ChannelNumber {
                number: next.channel,
            },
        );
    }
}

pub fn tick(s: &mut Words)
    ensures { state_in s.new ≡ tick (state_in s.old) }
{
    matching::clocked(s);
    matching::match_all(s);
    serve_next(s);
}
