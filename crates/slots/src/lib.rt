// One service a tick, by priority: which of the channels that are ready a tick serves.
#![tactic(auto)]

ghost use Rattle.std.specs.Prelude.{◌≡◌, None};
ghost use Rattle.words.specs.Field.{bit_of};
ghost use Rattle.slots.specs.Claims.{OneService};
ghost use Rattle.slots.specs.Rows.{SlotRows};
ghost use Rattle.slots.specs.Slots.{level_number, ticked, idled, slot_level, begins, served, found, ready_in, asked_in, next_in, serves, highest, chosen};

// The levels of priority, of a channel and of a slot.
#[derive(Clone, Copy, Debug, PartialEq, Eq)]
pub enum Level {
    High,
    Middle,
    Low,
}

// Where the slots stand, and where each level's next search begins.
#[derive(Clone, Copy, Debug, PartialEq, Eq)]
pub struct Slots {
    // ticks since reset, modulo 7
    pub slot: u16,
    // of each level the number above its last, round from 15 to 0
    pub high: u16,
    pub middle: u16,
    pub low: u16,
}

// Which channels are ready: a word for each level, bit c for channel c.
#[derive(Clone, Copy, Debug, PartialEq, Eq)]
pub struct Ready {
    pub high: u16,
    pub middle: u16,
    pub low: u16,
}

// Whom a slot goes to, and how the slots stand after it.
#[derive(Clone, Copy, Debug, PartialEq, Eq)]
pub struct Service {
    pub channel: u16,
    pub slots: Slots,
}

impl Slots {
    // The last of each level is 15, so its search begins at 0: reset is all zeros.
    pub const RESET: Slots = Slots {
        slot: 0,
        high: 0,
        middle: 0,
        low: 0,
    };

    // One tick on. Reduced first, as below, so that no sum passes 16 bits.
    #[tactic(auto, unfolding(crate::specs::Slots::ticked))]
    pub fn ticked(mut self) -> Slots
        ensures { result ≡ ticked self }
    {
        self.slot = (self.slot % 7 + 1) % 7;
        self
    }

    // So many ticks on, in which no channel is ready.
    #[tactic(auto, unfolding(crate::specs::Slots::idled))]
    pub fn idled(mut self, n: u16) -> Slots
        ensures { result ≡ idled n self }
    {
        self.slot = (self.slot % 7 + n % 7) % 7;
        self
    }

    // Where the search of a level begins.
    #[tactic(auto, unfolding(crate::specs::Slots::begins))]
    fn begins(self, level: Level) -> u16
        ensures { result ≡ begins self (level_number level) }
    {
        match level {
            Level::High => self.high,
            Level::Middle => self.middle,
            Level::Low => self.low,
        }
    }

    // After the service of c at this level: c is its last.
    #[tactic(auto, unfolding(crate::specs::Slots::served))]
    fn served(mut self, level: Level, c: u16) -> Slots
        ensures { result ≡ served self (level_number level) c }
    {
        let above = (c % 16 + 1) % 16;
        match level {
            Level::High => self.high = above,
            Level::Middle => self.middle = above,
            Level::Low => self.low = above,
        }
        self
    }

    // The service of the next channel of a level that is ready.
    #[tactic(auto, unfolding(crate::specs::Slots::asked_in))]
    fn next_at(self, ready: Ready, level: Level) -> Option<Service>
        ensures { result ≡ serves self (level_number level) (next_in self (asked_in ready) (level_number level)) None }
    {
        let channel = first_from(ready.at(level), self.begins(level))?;
        Some(Service {
            channel,
            slots: self.served(level, channel),
        })
    }

    // A slot that is handed on: to the highest level that has somebody.
    #[tactic(auto, unfolding(crate::specs::Slots::highest))]
    fn highest(self, ready: Ready) -> Option<Service>
        ensures { result ≡ highest self (asked_in ready) }
    {
        self.next_at(ready, Level::High)
            .or_else(|| self.next_at(ready, Level::Middle))
            .or_else(|| self.next_at(ready, Level::Low))
    }
}

impl Ready {
    // The channels that are ready at a level.
    #[tactic(auto, unfolding(crate::specs::Slots::ready_in))]
    fn at(self, level: Level) -> u16
        ensures { result ≡ ready_in self (level_number level) }
    {
        match level {
            Level::High => self.high,
            Level::Middle => self.middle,
            Level::Low => self.low,
        }
    }
}

// The level of a slot: from reset high, middle, high, low, high, middle, high.
#[tactic(auto, unfolding(crate::specs::Slots::slot_level))]
fn slot_level(slot: u16) -> Level
    ensures { level_number result ≡ slot_level slot }
{
    match slot {
        4 => Level::Low,
        2 | 6 => Level::Middle,
        _ => Level::High,
    }
}

// The first bit of w that is set, from bit `from` on, round from 15 to 0: w is turned until that search begins at bit 0.
fn first_from(w: u16, from: u16) -> Option<u16>
    ensures { result ≡ found 16 from (bit_of w) }
{
    let turned = rotation::rotate(w, from);
    if turned == 0 {
        return None;
    }
    Some((from % 16 + turned.trailing_zeros() as u16) % 16)
}

// Whom the slot goes to: its own level, and where nothing is ready there it is handed on.
#[tactic(auto, unfolding(crate::specs::Slots::chosen))]
pub fn choose(slots: Slots, ready: Ready) -> Option<Service>
    ensures { result ≡ chosen slots (asked_in ready) }
{
    slots
        .next_at(ready, slot_level(slots.slot))
        .or_else(|| slots.highest(ready))
}

// One slot and its bound of 112, and rows of slots computed.
pub fn one_service()
    ensures claims { OneService }
    ensures rows { SlotRows }
{}
