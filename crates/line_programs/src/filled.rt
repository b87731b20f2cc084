// A lent buffer that is filled from the front.
ghost use Rattle.std.specs.Prelude.{◌≡◌, ◌==◌, ◌≤◌, ◌+◌, ◌-◌, ◌++◌, length, min, take, drop};

use crate::Program;

#[derive(Drop)]
pub struct Filled<'a> {
    bytes: &'a mut [u8],
    count: usize,
    ghost fits: { count ≤ length bytes.now },
}

impl<'a> Filled<'a> {
    pub fn new(bytes: &'a mut [u8]) -> Filled<'a>
        ensures empty { result.count ≡ 0 }
    {
        Filled { bytes, count: 0 }
    }

    pub fn is_empty(&self) -> bool
        ensures { result ≡ (self.now.count == 0) }
    {
        self.count == 0
    }

    pub fn room(&self) -> usize
        ensures { result ≡ length self.now.bytes.now - self.now.count }
    {
        self.bytes.len() - self.count
    }

    pub fn filled(&self) -> &[u8]
        ensures { result.now ≡ take self.now.count self.now.bytes.now }
    {
        &self.bytes[..self.count]
    }

    pub fn clear(&mut self)
        ensures { self.new.count ≡ 0 }
    {
        self.count = 0;
    }

    // As many of the bytes as there is room for.
    pub fn put(&mut self, more: &[u8])
        ensures count { self.new.count ≡ min (self.old.count + length more.now) (length self.old.bytes.now) }
        ensures text { take self.new.count self.new.bytes.now
            ≡ take (length self.old.bytes.now) (take self.old.count self.old.bytes.now ++ more.now) }
        ensures rest { drop self.new.count self.new.bytes.now ≡ drop self.new.count self.old.bytes.now }
    {
        let n = more.len().min(self.room());
        let end = self.count + n;
        self.bytes[self.count..end].copy_from_slice(&more[..n]);
        self.count = end;
    }

    // The program's reply to a line, as much of it as there is room for.
    pub fn put_reply<P: Program>(&mut self, program: &mut P, line: &[u8]) {
        let n = program.answer(line, &mut self.bytes[self.count..]);
        self.count += n;
    }
}
