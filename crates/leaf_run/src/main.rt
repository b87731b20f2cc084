// Runs vectors over the functions of `words` and `motor` and prints what they answer.
// The expected answers, beside this folder in `stdout`, are worked out by hand from the rules of the motors.
#![tactic(auto)]

use motor::{Motor, Outcome, Way};
use std::io;

fn main(rt: HostRuntime) -> io::Result<()> {
    periods(&rt)?;
    clocks(&rt)?;
    patterns(&rt)?;
    fields(&rt)?;
    moves(&rt)
}

fn yes_or_no(on: bool) -> &'static str {
    if on { "yes" } else { "no" }
}

// P(r), the figures of the rules and the ends of its range.
fn periods(rt: &impl Print) -> io::Result<()> {
    for (cntl0, cntl1, rate) in [
        (20, 440, 1),
        (20, 440, 10),
        (77, 3487, 1),
        (77, 3487, 14),
        (20, 81, 3),
        (20, 80, 3),
        (20, 79, 3),
        (0, 32767, 1),
        (0, 32768, 1),
        (65535, 65535, 14),
        (65535, 65535, 65535),
    ] {
        let period = step::period(cntl0, cntl1, rate);
        println!(rt; "period {cntl0} {cntl1} {rate} = {period}")?;
    }
    Ok(())
}

// Due, the three of the rules at TCR1 3, and matches across the clock's end.
fn clocks(rt: &impl Print) -> io::Result<()> {
    for (now, time) in [
        (3, 0xFFFE),
        (3, 0x8004),
        (3, 0x8003),
        (0xFFFF, 0),
        (0, 0xFFFF),
        (0x7FFF, 0),
        (0x8000, 0),
        (0x1234, 0x1234),
    ] {
        let past = clock::past(now, time);
        let due = yes_or_no(past.due);
        println!(rt;
            "due at ${now:04X} ${time:04X} past ${:04X} {due}",
            past.counts
        )?;
    }
    for (time, count) in [(0xFFFF, 1), (0xFF00, 400), (0, 0x7FFF)] {
        let later = clock::later(time, count);
        println!(rt; "later ${time:04X} {count} = ${later:04X}")?;
    }
    Ok(())
}

// The levels of $CCCC by MOD_CNT, and rotation both ways at its ends.
fn patterns(rt: &impl Print) -> io::Result<()> {
    print!(rt; "levels of $CCCC")?;
    for count in 0..5 {
        let level = bitfield::bit(rotation::rotate(0xCCCC, count), 15);
        print!(rt; " {}", yes_or_no(level))?;
    }
    println!(rt; "")?;
    for (w, places) in [
        (0x8001, 0),
        (0x8001, 1),
        (0x1234, 4),
        (0x1234, 15),
        (0x1234, 16),
    ] {
        let right = rotation::rotate(w, places);
        let left = rotation::rotate(w, 16 - places % 16);
        println!(rt; "rotate ${w:04X} {places} right ${right:04X} left ${left:04X}")?;
    }
    Ok(())
}

// Fields of a word of each width, read and set at both ends; an index goes round.
fn fields(rt: &impl Print) -> io::Result<()> {
    let w = 0x1B2D;
    for i in [0, 1, 3, 15, 16] {
        let nibble = bitfield::nibble(w, i);
        let pair = bitfield::pair(w, i);
        let bit = yes_or_no(bitfield::bit(w, i));
        println!(rt; "read ${w:04X} {i} = {nibble} {pair} {bit}")?;
    }
    for (w, i, v) in [
        (0xFFFF, 0, 0),
        (0xFFFF, 3, 0),
        (0x0000, 7, 3),
        (0x0000, 15, 0xFFFF),
    ] {
        let nibble = bitfield::with_nibble(w, i, v);
        let pair = bitfield::with_pair(w, i, v);
        let bit = bitfield::with_bit(w, i, v % 2 == 1);
        println!(rt; "set ${w:04X} {i} ${v:04X} = ${nibble:04X} ${pair:04X} ${bit:04X}")?;
    }
    Ok(())
}

// Whole moves at N = 3, STEP_CNTL0 20 and STEP_CNTL1 440, without time: each step's position and period, and the tick of the arrival.
fn moves(rt: &impl Print) -> io::Result<()> {
    for (from, target, at, then) in [
        (0, 10, 10, 10),
        (0, 3, 3, 3),
        (0, 2, 2, 2),
        (0, 0, 0, 0),
        (0, 10, 3, 1),
        (10, 0, 0, 0),
        (65532, 65529, 65529, 65529),
    ] {
        print!(rt; "travel {from} {target}, at {at} {then}:")?;
        let mut journey = Journey::new(from, target, at, then);
        for (position, period) in journey.by_ref().take(MOST_STEPS) {
            print!(rt; " {position}:{period}")?;
        }
        println!(rt; " tick {}", journey.tick)?;
    }
    Ok(())
}

// More than the longest of these moves has.
const MOST_STEPS: usize = 20;

// A motor on its way. At the position `at` its target becomes `then`.
#[derive(Drop)]
struct Journey {
    m: Motor,
    next: Outcome,
    tick: u16,
    at: u16,
    then: u16,
}

impl Journey {
    fn new(from: u16, target: u16, at: u16, then: u16) -> Journey {
        let m = Motor {
            position: from,
            target,
            rate: 1,
            top: 3,
            way: Way::Right,
        };
        Journey {
            m,
            next: decision::on_request(m),
            tick: 1,
            at,
            then,
        }
    }

    fn step(&mut self, way: Way, rate: u16) {
        let position = step::beside(way, self.m.position);
        if position == self.at {
            self.m.target = self.then;
        }
        self.m.position = position;
        self.m.rate = rate;
        self.m.way = way;
    }
}

// The position and the period of each step, up to the arrival.
impl Iterator for Journey {
    type Item = (u16, u16);

    fn next(&mut self) -> Option<(u16, u16)> {
        let Outcome::Step(way, rate) = self.next else {
            return None;
        };
        let period = step::period(20, 440, self.m.rate);
        self.step(way, rate);
        self.next = decision::on_match(self.m);
        self.tick = clock::later(self.tick, period);
        Some((self.m.position, period))
    }
}
