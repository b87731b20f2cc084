// A store of 2 to 128 blocks of 512 bytes: words, soundness, and which block is sought.
#![tactic(auto)]

ghost use Rattle.std.specs.Prelude.{◌≡◌, ◌%◌, slice_index, slice_set};
ghost use Rattle.blocks.specs.Blocks.{count, word_in, with_word, version, sum, is_sound};
ghost use Rattle.blocks.specs.Finding.{fits, rank, better, found};

// What is sought: the newest sound block, one of a named version, the oldest sound one, or one that is not sound.
#[derive(Clone, Copy, PartialEq, Eq, Debug)]
pub enum Search {
    Newest,
    Named(u32),
    Oldest,
    Unsound,
}

// How many blocks there are; none in bytes that are not 2 to 128 whole blocks.
#[tactic(auto, unfolding(crate::specs::Blocks::is_store, crate::specs::Blocks::count))]
pub fn count(store: &[u8]) -> u8
    ensures { result ≡ count store.now }
{
    let n = store.len() / 512;
    if store.len() % 512 == 0 && 2 <= n && n <= 128 {
        return n as u8;
    }
    0
}

// A byte that does not exist reads as 0.
fn byte(store: &[u8], at: usize) -> u8
    ensures { result ≡ slice_index store.now at }
{
    store.get(at).copied().unwrap_or(0)
}

// Word i of block k, high byte first.
#[tactic(auto, unfolding(crate::specs::Blocks::word_in))]
pub fn word(store: &[u8], k: u8, i: u8) -> u16
    ensures { result ≡ word_in store.now k i }
{
    let at = 512 * (k as usize) + 2 * (i as usize);
    u16::from_be_bytes([byte(store, at), byte(store, at + 1)])
}

// Where there is no such byte nothing is put.
fn put_byte(store: &mut [u8], at: usize, x: u8)
    ensures { store.new ≡ slice_set store.old at x }
{
    if at < store.len() {
        store[at] = x;
    }
}

#[tactic(auto, unfolding(crate::specs::Blocks::with_word))]
pub fn put(store: &mut [u8], k: u8, i: u8, w: u16)
    ensures { store.new ≡ with_word store.old k i w }
{
    let at = 512 * (k as usize) + 2 * (i as usize);
    let [high, low] = w.to_be_bytes();
    put_byte(store, at, high);
    put_byte(store, at + 1, low);
}

#[tactic(auto, unfolding(crate::specs::Blocks::version))]
pub fn version(store: &[u8], k: u8) -> u32
    ensures { result ≡ version store.now k }
{
    let high = word(store, k, 1);
    let low = word(store, k, 2);
    65536 * (high as u32) + low as u32
}

// The sum of the first 255 words.
fn total(store: &[u8], k: u8) -> u16
    ensures { result ≡ sum (word_in store.now k) 255 % 65536 }
{
    (0..255).fold(0, |t: u16, i| t.wrapping_add(word(store, k, i)))
}

#[tactic(auto, unfolding(crate::specs::Blocks::is_sound, crate::specs::Blocks::check_word))]
pub fn is_sound(store: &[u8], k: u8) -> bool
    ensures { result ≡ is_sound store.now k }
{
    word(store, k, 255) == 0xffff - total(store, k)
}

#[tactic(auto, unfolding(crate::specs::Finding::fits))]
fn fits(store: &[u8], w: Search, k: u8) -> bool
    ensures { result ≡ fits store.now w k }
{
    let sound = is_sound(store, k);
    match w {
        Search::Newest => sound,
        Search::Named(v) => sound && version(store, k) == v,
        Search::Oldest => sound,
        Search::Unsound => !sound,
    }
}

#[tactic(auto, unfolding(crate::specs::Finding::rank))]
fn rank(store: &[u8], w: Search, k: u8) -> u32
    ensures { result ≡ rank store.now w k }
{
    match w {
        Search::Newest => version(store, k),
        Search::Named(_) => 0,
        Search::Oldest => 0xffff_ffff - version(store, k),
        Search::Unsound => 0,
    }
}

// The best so far, or block k behind it.
fn better(store: &[u8], w: Search, best: Option<u8>, k: u8) -> Option<u8>
    ensures { result ≡ better store.now w best k }
{
    if !fits(store, w, k) {
        return best;
    }
    let here = rank(store, w, k);
    match best {
        None => Some(k),
        Some(j) if here <= rank(store, w, j) => best,
        Some(_) => Some(k),
    }
}

// The first block of the greatest rank among those that are sought.
pub fn find(store: &[u8], w: Search) -> Option<u8>
    ensures { result ≡ found store.now w }
{
    (0..count(store)).fold(None, |best, k| better(store, w, best, k))
}
