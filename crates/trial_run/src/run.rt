// A motor under way, watched tick by tick through the calls.
use crate::bench;
use crate::bench::Setting;
use std::io;
use unit::State;

#[derive(Clone, Copy)]
pub struct Run {
    pub state: State,
    // ticks since the request
    pub tick: u16,
    // the first tick after which the status bit was found set
    lit: Option<u16>,
    // the pin word that the latest tick gave, and how often it has changed
    pins: u16,
    changes: u16,
}

impl Run {
    // Asked to step after so many ticks of rest. From here the ticks and the changes of the pins count.
    pub fn asked(state: State, rest: u16) -> Run {
        let start = Run {
            state,
            tick: 0,
            lit: None,
            pins: 0,
            changes: 0,
        };
        let mut r = start.after(rest);
        r.state = bench::request(r.state).state;
        r.tick = 0;
        r.changes = 0;
        r
    }

    // The one tick of rest shows the pins before the first step.
    pub fn begun(m: Setting) -> Run {
        Run::asked(bench::ready(m), 1)
    }

    // The same run towards another target.
    pub fn with_target(mut self, to: u16) -> Run {
        self.state = bench::put(self.state, bench::TARGET, to);
        self
    }

    pub fn position(&self) -> u16 {
        bench::look(self.state, bench::POSITION)
    }

    // The group is free: a write of the position would be taken.
    fn rests(&self) -> bool {
        tpu::write(self.state, bench::POSITION, 0).answer.is_ok()
    }

    fn ticked(self) -> Run {
        let mut lent = [0u16; 1];
        let state = tpu::advance(self.state, 1, &mut lent).state;
        let tick = clock::later(self.tick, 1);
        let status = bitfield::bit(bench::look(state, bench::CISR), 4);
        let change = u16::from(lent[0] != self.pins);
        Run {
            state,
            tick,
            lit: self.lit.or(status.then_some(tick)),
            pins: lent[0],
            changes: clock::later(self.changes, change),
        }
    }

    pub fn after(self, ticks: u16) -> Run {
        let mut r = self;
        for _ in 0..ticks {
            r = r.ticked();
        }
        r
    }

    // To the next step or the arrival, within MAX_PERIOD ticks: no period is longer.
    pub fn onward(self) -> Run {
        let from = self.position();
        let mut r = self;
        for _ in 0..State::MAX_PERIOD {
            r = r.ticked();
            if r.position() != from || r.rests() {
                break;
            }
        }
        r
    }

    // From the next step on, so many steps or until the arrival: the position and the period of each.
    pub fn steps(self, rt: &impl Print, most: u16) -> io::Result<Run> {
        let mut r = self.onward();
        for _ in 0..most {
            if r.rests() {
                break;
            }
            let t = r.onward();
            let period = clock::since(t.tick, r.tick);
            print!(rt; " {}:{period}", r.position())?;
            r = t;
        }
        Ok(r)
    }

    // The steps to the arrival, its tick, that of the status bit, and how often the pins changed.
    pub fn arrival(self, rt: &impl Print) -> io::Result<()> {
        let r = self.steps(rt, 20)?;
        let tick = r.tick;
        let lit = r.lit.unwrap_or(0);
        let changes = r.changes;
        println!(rt; " tick {tick}, status {lit}, pin changes {changes}")
    }
}
