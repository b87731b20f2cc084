// Where the settings stand, in the unit and in a block.
ghost use Rattle.std.specs.Prelude.{◌≡◌};
ghost use Rattle.blocks.specs.Blocks.{laid};
ghost use Rattle.keeping.specs.Layout.{setting_address, setting, held_word, block_word};

use keeping::{FIRST, LAYOUT, SETTINGS};
use unit::State;

// Six words each of channels 0 to 13, the sixteen of 14 and 15, CFSR, CPR.
#[tactic(auto, unfolding(keeping::specs::Layout::setting_address))]
pub fn address(n: u8) -> u16
    ensures { result ≡ setting_address n }
{
    let at = n as u16;
    if at < 84 {
        return 0xf00 + 16 * (at / 6) + 2 * (at % 6);
    }
    if at < 100 {
        return 0xfe0 + 2 * (at - 84);
    }
    if at < 104 {
        return 0xe0c + 2 * (at - 100);
    }
    0xe1c + 2 * (at - 104)
}

// As the host would read it.
fn setting(s: State, n: u8) -> u16
    ensures { result ≡ setting s n }
{
    tpu::read(s, address(n)).unwrap_or(0)
}

// Word i of a block, but the last.
#[tactic(auto, unfolding(keeping::specs::Layout::held_word))]
fn held(s: State, version: u32, i: u8) -> u16
    ensures { result ≡ held_word s version i }
{
    match i {
        0 => LAYOUT,
        1 => (version / 65536) as u16,
        2 => (version % 65536) as u16,
        _ if i < FIRST + SETTINGS => setting(s, i - FIRST),
        _ => 0,
    }
}

// The whole block k, its last word from the sum of the others.
pub fn lay(store: &mut [u8], k: u8, s: State, version: u32)
    ensures { store.new ≡ laid (block_word s version) store.old k 256 }
{
    let mut total: u16 = 0;
    for i in 0..255 {
        let w = held(s, version, i);
        blocks::put(store, k, i, w);
        total = total.wrapping_add(w);
    }
    blocks::put(store, k, 255, 0xffff - total);
}
