// What the trials show of an answer: the number of the question that said no, or else what was done.
use std::fmt;
use std::fmt::{Display, Formatter};
use unit::Refusal;

// Of a write, an advance or a request.
#[derive(Drop)]
pub struct Taken(pub Result<(), Refusal>);

// Of a read: the word.
#[derive(Drop)]
pub struct Read(pub Result<u16, Refusal>);

impl Display for Taken {
    fn fmt<W: fmt::Write>(&self, f: &mut Formatter<W>) -> fmt::Result {
        match self.0 {
            Ok(()) => f.write_str("taken"),
            Err(refusal) => write!(f, "N {}", refusal.number()),
        }
    }
}

impl Display for Read {
    fn fmt<W: fmt::Write>(&self, f: &mut Formatter<W>) -> fmt::Result {
        match self.0 {
            Ok(w) => write!(f, "{w:04X}"),
            Err(refusal) => write!(f, "N {}", refusal.number()),
        }
    }
}
