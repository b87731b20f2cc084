// What the settings run prints, on standard output.
use keeping::Refusal;
use std::fmt::{Display, Formatter};
use std::{fmt, io};

// The bytes of a store are printed in rows of 32, and a block has 16 rows.
const ROW: usize = 32;

// The version after the call's letter, or the number of the no.
pub fn kept(rt: &impl Print, letter: char, k: Result<u32, Refusal>) -> io::Result<()> {
    match k {
        Ok(version) => println!(rt; "{letter} {version}"),
        Err(refusal) => println!(rt; "N {}", refusal.number()),
    }
}

// Each row of a store that is not as it was before.
pub fn changes(rt: &impl Print, before: &[u8], store: &[u8]) -> io::Result<()> {
    let rows = before.chunks(ROW).zip(store.chunks(ROW));
    for (r, (old, new)) in rows.enumerate() {
        if old != new {
            println!(rt; "B {r} {}", Row(new))?;
        }
    }
    Ok(())
}

// The bytes of a row, two hexadecimal digits each.
#[derive(Drop)]
struct Row<'a>(&'a [u8]);

impl Display for Row<'_> {
    fn fmt<W: fmt::Write>(&self, f: &mut Formatter<W>) -> fmt::Result {
        for b in self.0 {
            write!(f, "{b:02X}")?;
        }
        Ok(())
    }
}
