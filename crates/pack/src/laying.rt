// The state into 211 words.
ghost use Rattle.std.specs.Prelude.{◌≡◌, ◌+◌, ◌<◌, ◌≤◌, length};
ghost use Rattle.pack.specs.Packing.{tabulate, row_laid, latches_laid, latches_in};

use crate::{Words, layout};
use unit::Latches;

// The four words of channel i.
fn lay_latches(x: Latches, s: &mut Words, i: usize)
    requires { i < 16 }
    ensures { s.new ≡ latches_laid s.old i x }
{
    s[layout::FLAGS + i] = x.flags;
    s[layout::TIMES + i] = x.time;
    s[layout::LATES + i] = x.late;
    s[layout::SET_TIMES + i] = x.set;
}

pub fn lay_channels(channels: [Latches; 16], s: &mut Words)
    ensures { tabulate 16 (latches_in s.new) ≡ channels }
{
    for i in 0..16 {
        lay_latches(channels[i], s, i);
    }
}

// A row from word `at` on.
pub fn lay_row(row: &[u16], s: &mut Words, at: usize)
    requires { at + length row.now ≤ length s.old }
    ensures { s.new ≡ row_laid s.old at row.now }
{
    s[at..at + row.len()].copy_from_slice(row);
}
