// A store that is lent, in a buffer of fixed size.
ghost use Rattle.std.specs.Prelude.{◌≤◌, length};

use keeping::Refusal;
use std::io;
use std::io::Read;
use unit::State;

// No store of the test is longer.
const ROOM: usize = 129 * 512;

#[derive(Clone, Copy)]
pub struct Store {
    buffer: [u8; ROOM],
    count: usize,
    ghost fits: { count ≤ length buffer },
}

impl Store {
    pub fn new() -> Store {
        Store {
            buffer: [0; ROOM],
            count: 0,
        }
    }

    // Until the buffer is full or the file ends: a read gives a byte at least until then.
    pub fn read(&mut self, file: &mut impl Read) -> io::Result<()> {
        self.count = 0;
        for _ in 0..ROOM {
            let n = file.read(&mut self.buffer[self.count..])?;
            if n == 0 {
                break;
            }
            self.count += n;
        }
        Ok(())
    }

    pub fn bytes(&self) -> &[u8] {
        &self.buffer[..self.count]
    }

    pub fn save(&mut self, s: State) -> Result<u32, Refusal> {
        let mut buffer = self.buffer;
        let k = settings::save(s, &mut buffer[..self.count]);
        self.buffer = buffer;
        k
    }
}
