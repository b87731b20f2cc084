// A board's settings kept by version: what its two calls answer, and the numbers of a block.
#![tactic(auto)]

ghost use Rattle.std.specs.Prelude.{◌≡◌};
ghost use Rattle.keeping.specs.Keeping.{refusal_number, sought};

use blocks::Search;
use unit::State;

// How many settings a board has.
pub const SETTINGS: u8 = 106;

// The word of a block that holds the first of them.
pub const FIRST: u8 = 3;

// The layout of a block that is written and known here.
pub const LAYOUT: u16 = 1;

// Why a save or a load is refused. Its value is the number of the question that has a no.
#[derive(Clone, Copy, PartialEq, Eq, Debug)]
pub enum Refusal {
    // some channel is bound or has a pending request
    NotFree = 2,
    // there is no sound block to load, or none of the version that is named, or no version is left to save
    NoVersion = 12,
    // the block to load has a layout that is not known here
    UnknownLayout = 13,
}

impl Refusal {
    pub fn number(self) -> u8
        ensures { result ≡ refusal_number self }
    {
        self as u8
    }
}

// Which version is loaded.
#[derive(Clone, Copy, PartialEq, Eq, Debug)]
pub enum Which {
    Latest,
    Version(u32),
}

impl From<Which> for Search {
    ghost from_gives = { λ which search. search ≡ sought which };

    #[tactic(auto, unfolding(crate::specs::Keeping::sought))]
    fn from(which: Which) -> Search {
        match which {
            Which::Latest => Search::Newest,
            Which::Version(v) => Search::Named(v),
        }
    }
}

// What a load gives: the version that was loaded, and the state after it.
#[derive(Clone, Copy)]
pub struct Loaded {
    pub answer: Result<u32, Refusal>,
    pub state: State,
}
