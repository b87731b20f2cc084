// Which block is loaded, and its writes.
ghost use Rattle.std.specs.Prelude.{◌≡◌, ◌<◌, Ok};
ghost use Rattle.unit.specs.Calls.{run};
ghost use Rattle.keeping.specs.Layout.{load_calls};
ghost use Rattle.keeping.specs.Keeping.{chosen, all_free, load_from};

use keeping::{FIRST, LAYOUT, Loaded, Refusal, SETTINGS, Which};
use saving::layout;
use unit::State;

// What the store refuses comes first: that nothing is found, and then that the layout is not known.
pub fn chosen(store: &[u8], which: Which) -> Result<u8, Refusal>
    ensures { result ≡ chosen store.now which }
{
    let k = blocks::find(store, which.into()).ok_or(Refusal::NoVersion)?;
    if blocks::word(store, k, 0) != LAYOUT {
        return Err(Refusal::UnknownLayout);
    }
    Ok(k)
}

fn all_free(s: State) -> bool
    ensures { result ≡ all_free s }
{
    let mut w = [0; pack::layout::WORDS];
    pack::pack(s, &mut w);
    (0..16).all(
        |c|
            requires { c < 16 }
        { binding::is_free(&w, pack::ChannelNumber { number: c }) },
    )
}

// One ordinary write after another, in the order of the block, on words: a state by value would be laid in words for each.
fn played(s: State, store: &[u8], k: u8) -> State
    ensures { result ≡ run s (load_calls store.now k) }
{
    let mut words = [0; pack::layout::WORDS];
    pack::pack(s, &mut words);
    for n in 0..SETTINGS {
        let _ = deeds::write(
            &mut words,
            layout::address(n),
            blocks::word(store, k, FIRST + n),
        );
    }
    pack::unpack(&words)
}

#[tactic(auto, using(words::proofs::ChoiceLaws::goes_on, words::proofs::ChoiceLaws::stops), unfolding(keeping::specs::Keeping::load_from))]
pub fn from(s: State, store: &[u8], k: u8) -> Loaded
    ensures { result ≡ load_from s store.now (Ok k) }
{
    if !all_free(s) {
        return Loaded {
            answer: Err(Refusal::NotFree),
            state: s,
        };
    }
    Loaded {
        answer: Ok(blocks::version(store, k)),
        state: played(s, store, k),
    }
}
