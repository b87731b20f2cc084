// Where the parts of the state stand among its words: the 128 parameter words first, then these.
pub const REGS: usize = 128;

pub const TCR1: usize = 140;

pub const TCR2: usize = 141;

pub const PINS: usize = 142;

pub const FLAGS: usize = 143;

pub const TIMES: usize = 159;
// the slot, then where the search of each level begins
pub const SLOTS: usize = 175;

pub const LATES: usize = 179;

pub const SET_TIMES: usize = 195;

pub const WORDS: usize = 211;
