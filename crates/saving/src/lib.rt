// What a save writes: under which version, where to, and the block.
#![tactic(auto)]

pub mod layout;

ghost use Rattle.std.specs.Prelude.{◌≡◌};
ghost use Rattle.keeping.specs.Keeping.{greatest, place_of};

use blocks::Search;

// The greatest sound version, 0 where no block is sound.
#[tactic(auto, unfolding(keeping::specs::Keeping::greatest, keeping::specs::Keeping::version_at))]
pub fn greatest(store: &[u8]) -> u32
    ensures { result ≡ greatest store.now }
{
    blocks::find(store, Search::Newest).map_or(0, |k| blocks::version(store, k))
}

// The first unsound block, else the one of the smallest version.
#[tactic(auto, unfolding(keeping::specs::Keeping::place_of, keeping::specs::Keeping::or_oldest, keeping::specs::Keeping::block_at))]
pub fn place(store: &[u8]) -> u8
    ensures { result ≡ place_of store.now }
{
    blocks::find(store, Search::Unsound)
        .or_else(|| blocks::find(store, Search::Oldest))
        .unwrap_or(0)
}
