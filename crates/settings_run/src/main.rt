// The settings run: saves and loads of the stores in data/, by lines from standard input. tests/settings has how its files are made.
#![tactic(auto)]

ghost use Rattle.std.specs.Prelude.{◌≡◌};

use arrayvec::ArrayVec;
use keeping::Which;
use script::Bench;
use std::io::Read;
use std::rt::Files;
use std::{fs, io};
use store::Store;

mod show;
mod store;

// A line feed ends a line; of its bytes the first 32 are kept.
fn main(rt: HostRuntime) -> io::Result<()> {
    let mut session = Session::new();
    let mut line = ArrayVec::<u8, 32>::new();
    for byte in rt.stdin().bytes() {
        match byte? {
            b'\n' => {
                session.line_done(&rt, line.as_slice())?;
                line.clear();
            }
            b => {
                let _ = line.try_push(b);
            }
        }
    }
    Ok(())
}

// The unit on its bench, and the store that is lent.
#[derive(Drop)]
struct Session {
    bench: Bench,
    store: Store,
}

impl Session {
    fn new() -> Session {
        Session {
            bench: Bench::RESET,
            store: Store::new(),
        }
    }

    // Where there is no file of a name, the line that names it is of no form.
    fn line_done(&mut self, rt: &(impl Files + Print), line: &[u8]) -> io::Result<()> {
        if let Some(name) = name(line)
            && let Ok(mut file) = fs::open(rt, name)
        {
            return self.lend(rt, &mut file);
        }
        match (line, version(line)) {
            (b"S", _) => self.save(rt),
            (b"L", _) => self.load(rt, Which::Latest),
            (_, Some(v)) => self.load(rt, Which::Version(v)),
            (_, None) => self.reply(rt, line),
        }
    }

    fn lend(&mut self, rt: &impl Print, file: &mut impl Read) -> io::Result<()> {
        self.store.read(file)?;
        println!(rt; "F {}", self.store.bytes().len())
    }

    fn save(&mut self, rt: &impl Print) -> io::Result<()> {
        let before = self.store;
        let k = self.store.save(self.bench.state);
        show::kept(rt, 'S', k)?;
        show::changes(rt, before.bytes(), self.store.bytes())
    }

    // A load cannot change the store, which is lent to be read only.
    fn load(&mut self, rt: &impl Print, which: Which) -> io::Result<()>
        ensures same_store { self.new.store ≡ self.old.store }
    {
        let l = settings::load(self.bench.state, which, self.store.bytes());
        self.bench.state = l.state;
        show::kept(rt, 'L', l.answer)
    }

    // Any other line is one of the script program.
    fn reply(&mut self, rt: &impl Print, line: &[u8]) -> io::Result<()>
        ensures same_store { self.new.store ≡ self.old.store }
    {
        let mut out = [0u8; script::MAX_REPLY];
        let n = self.bench.reply(line, &mut out);
        rt.write_all(&out[..n])
    }
}

// The name of the file that a line lends.
fn name(line: &[u8]) -> Option<&str> {
    str::from_utf8(line.strip_prefix(b"F ")?).ok()
}

// The version that a line loads. Digits alone are one: `parse` would take a sign too.
fn version(line: &[u8]) -> Option<u32> {
    let digits = line.strip_prefix(b"L ")?;
    if !digits.iter().all(|b| b.is_ascii_digit()) {
        return None;
    }
    str::from_utf8(digits).ok()?.parse().ok()
}
