// Runs the trials of the motors' rules over the calls of the timer unit and prints what they measure, a line a trial.
// The expected lines, beside this folder in `stdout`, are worked out by hand from those rules.
#![tactic(auto)]

mod bench;
mod run;
mod show;

use bench::Setting;
use run::Run;
use show::{Read, Taken};
use std::io;
use unit::State;

fn main(rt: HostRuntime) -> io::Result<()> {
    listing(&rt)?;
    ramps(&rt)?;
    moves(&rt)?;
    patterns(&rt)?;
    clocks(&rt)?;
    requests(&rt)?;
    while_stepping(&rt)?;
    interrupts(&rt)
}

// The script program's three lines, by the calls that they stand for.
fn listing(rt: &impl Print) -> io::Result<()> {
    let w = tpu::write(tpu::reset(), 0xE01, 0);
    println!(rt; "W E01 0000: {}", Taken(w.answer))?;
    let word = tpu::read(w.state, bench::CISR);
    println!(rt; "R E20: {}", Read(word))?;
    let mut lent = [0u16; 2];
    let t = tpu::advance(w.state, 2, &mut lent);
    println!(rt; "T 2: {}", Taken(t.answer))
}

// The ends of the questions on ramps, and each ramp driven to its top rate both ways: the first steps of a long move, one for each rate.
fn ramps(rt: &impl Print) -> io::Result<()> {
    for (cntl0, cntl1, top) in [
        (20, 208, 3),
        (20, 207, 3),
        (20, 81, 3),
        (20, 80, 3),
        (0, 32767, 3),
        (0, 32768, 3),
        (20, 440, 10),
        (77, 3487, 14),
    ] {
        let m = Setting::new(cntl0, cntl1, top, 0, 0);
        let w = bench::request(bench::ready(m));
        println!(rt; "ramp {cntl0} {cntl1} top {top}: {}", Taken(w.answer))?;
    }
    for (cntl0, cntl1, top, from, to) in [
        (20, 440, 10, 0, 60),
        (20, 440, 10, 60, 0),
        (77, 3487, 14, 0, 60),
        (77, 3487, 14, 60, 0),
        (20, 208, 3, 0, 60),
        (0, 32767, 1, 0, 60),
    ] {
        print!(rt; "ramp {cntl0} {cntl1} top {top}, {from} to {to}:")?;
        let m = Setting::new(cntl0, cntl1, top, from, to);
        Run::begun(m).steps(rt, top)?;
        println!(rt; "")?;
    }
    Ok(())
}

// Both ways each: whole moves, a target behind the motor, and TCR1 passing its end.
fn moves(rt: &impl Print) -> io::Result<()> {
    for (from, to) in [(0, 10), (0, 3), (0, 2), (0, 0), (10, 0), (3, 0), (2, 0)] {
        print!(rt; "move {from} to {to}:")?;
        Run::begun(Setting::travel(from, to)).arrival(rt)?;
    }
    for (from, to, then) in [(0, 10, 1), (10, 0, 9)] {
        back(rt, from, to, then)?;
    }
    for (from, to) in [(0, 3), (3, 0)] {
        // the motor rests until TCR1 is near $FFFF
        let r = Run::asked(bench::ready(Setting::travel(from, to)), 65018);
        print!(rt;
            "wrap from TCR1 ${:04X}, {from} to {to}:",
            r.state.timers.tcr1
        )?;
        r.arrival(rt)?;
    }
    Ok(())
}

// While the motor is fast, after tick 781, the target becomes `then`.
fn back(rt: &impl Print, from: u16, to: u16, then: u16) -> io::Result<()> {
    let r = Run::begun(Setting::travel(from, to)).after(781);
    let tick = r.tick;
    let position = r.position();
    let rate = bitfield::nibble(bench::look(r.state, bench::RATE), 0);
    print!(rt; "back {from} to {to}: tick {tick} at {position} rate {rate}, target {then}:")?;
    r.with_target(then).arrival(rt)
}

// The pattern turned by the steps, both ways: MOD_CNT and bit 15 of CHANNEL_CONTROL, before the first step and after each.
fn patterns(rt: &impl Print) -> io::Result<()> {
    for (from, to) in [(0, 4), (4, 0)] {
        print!(rt; "levels of $CCCC, {from} to {to}:")?;
        let mut r = Run::begun(Setting::travel(from, to));
        for _ in 0..5 {
            let count = bitfield::nibble(bench::look(r.state, bench::RATE), 2);
            let control = bench::look(r.state, bench::CHANNEL_CONTROL);
            print!(rt; " {count}:{}", control >> 15)?;
            r = r.onward();
        }
        println!(rt; "")?;
    }
    Ok(())
}

fn clocks(rt: &impl Print) -> io::Result<()> {
    for (now, time) in [(3, 0xFFFE), (3, 0x8004), (3, 0x8003)] {
        let p = clock::past(now, time);
        let due = if p.due { "yes" } else { "no" };
        println!(rt; "due at TCR1 ${now:04X} match ${time:04X}: {due}")?;
    }
    Ok(())
}

// What the questions say to requests at the edges of their ranges.
fn requests(rt: &impl Print) -> io::Result<()> {
    for to in [0xFFFC, 0xFFFD] {
        let w = bench::request(bench::ready(Setting::travel(0, to)));
        println!(rt; "target ${to:04X}: {}", Taken(w.answer))?;
    }
    for channel in [5, 11, 4, 12] {
        let m = Setting::travel(0, 10).with_last(channel);
        let w = bench::request(bench::ready(m));
        println!(rt; "last channel {channel}: {}", Taken(w.answer))?;
    }
    for (pattern, control) in [(0xCCCC, 0x0081), (0xCCCC, 0x0082), (0xCCCC, 0x00A1)] {
        let w = bench::initialise(pattern, control);
        let shown = Taken(w.answer);
        println!(rt;
            "initialise PIN_CONTROL ${pattern:04X} CHANNEL_CONTROL ${control:04X}: {shown}"
        )?;
    }
    Ok(())
}

fn while_stepping(rt: &impl Print) -> io::Result<()> {
    let r = Run::begun(Setting::travel(0, 10)).after(1);
    let w = tpu::write(r.state, bench::GROUP, 0x0305);
    println!(rt; "while stepping, word 5: {}", Taken(w.answer))?;
    let w = tpu::write(r.state, bench::TARGET, 5);
    println!(rt; "while stepping, target 5: {}", Taken(w.answer))
}

// The line at rest, at the request, after the arrival, and after the status bit is cleared.
fn interrupts(rt: &impl Print) -> io::Result<()> {
    for enable in [0x0010, 0x0000] {
        let s = bench::put(bench::ready(Setting::travel(0, 2)), bench::CIER, enable);
        let r = Run::asked(s, 1);
        let end = r.after(801);
        let cleared = bench::put(end.state, bench::CISR, 0);
        print!(rt; "interrupt CIER ${enable:04X}:")?;
        for t in [s, r.state, end.state, cleared] {
            print!(rt; " {}", up_or_down(t))?;
        }
        println!(rt; "")?;
    }
    Ok(())
}

fn up_or_down(s: State) -> &'static str {
    if tpu::interrupt_line(s) { "up" } else { "down" }
}
