// A board's settings, kept by version in a store that the caller lends.
#![tactic(auto)]

mod loading;

ghost use Rattle.std.specs.Prelude.{◌≡◌};
ghost use Rattle.keeping.specs.Keeping.{number_of, version_of, save_of, save_number, save_version, store_after};
ghost use Rattle.keeping.specs.Keeping.{chosen, load_of, load_number, load_version};

use keeping::{Loaded, Refusal, Which};
use saving::layout;
use unit::State;

// Keeps the settings of s as the next version. Refused, it leaves the store as it was.
// It gets a copy of the state and gives none back: the caller's own is as it was.
pub fn save(s: State, store: &mut [u8]) -> Result<u32, Refusal>
    ensures answer { result ≡ save_of store.old }
    ensures number { number_of result ≡ save_number store.old }
    ensures version { version_of result ≡ save_version store.old }
    ensures kept { store.new ≡ store_after s store.old }
{
    if blocks::count(store) == 0 {
        return Err(Refusal::NoVersion);
    }
    let version = saving::greatest(store)
        .checked_add(1)
        .ok_or(Refusal::NoVersion)?;
    layout::lay(store, saving::place(store), s, version);
    Ok(version)
}

// Plays the settings of a version in, as ordinary writes. Refused, it leaves the state as it was.
pub fn load(s: State, which: Which, store: &[u8]) -> Loaded
    ensures loaded { result ≡ load_of s which store.now }
    ensures number { number_of result.answer ≡ load_number s (chosen store.now which) }
    ensures version { version_of result.answer ≡ load_version s store.now (chosen store.now which) }
{
    match loading::chosen(store, which) {
        Ok(k) => loading::from(s, store, k),
        Err(refusal) => Loaded {
            answer: Err(refusal),
            state: s,
        },
    }
}
