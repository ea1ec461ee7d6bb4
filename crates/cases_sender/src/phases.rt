// Samples of pipeACK, the phase, and the period of 300 seconds.
use crate::calls::{
    END, GOOD, INITIAL, MOST, RELAY, answer, asked, fresh, idle, loss, phase, phase_with, sample,
    sampled,
};
use sender_rules::Connection;
use std::io;

// A window that is not used at all: 300 seconds in the phase, and one microsecond more.
fn adjust(rt: &impl Print, window: u64, ssthresh: u64, initial_window: u64) -> io::Result<()> {
    let mut c = sample(rt, fresh(rt, window, ssthresh)?, 1_000, 0)?;
    c = phase_with(rt, c, RELAY, initial_window, 1_000)?;
    c = sample(rt, c, 300_001_000, 0)?;
    c = phase_with(rt, c, RELAY, initial_window, 300_001_000)?;
    phase_with(rt, c, RELAY, initial_window, 300_001_001)?;
    Ok(())
}

fn adjustments(rt: &impl Print) -> io::Result<()> {
    println!(rt; "periods that are over:")?;
    for (window, ssthresh, initial_window) in [
        (40_000, 20_000, INITIAL),
        (4_000, 20_000, INITIAL),
        (40_003, 20_000, INITIAL),
        (40_000, 30_001, INITIAL),
        (8_761, 0, INITIAL),
        (8_759, 0, INITIAL),
        (4_381, 0, INITIAL),
        (4_380, 0, INITIAL),
        (1, 0, 1),
        (3, 0, 65_535),
        (MOST, MOST, 65_535),
        (MOST, 0, 1),
    ] {
        adjust(rt, window, ssthresh, initial_window)?;
    }
    Ok(())
}

// Five samples, 100 microseconds apart.
fn five(rt: &impl Print, row: [u64; 5]) -> io::Result<Connection> {
    let mut c = fresh(rt, 40_000, 0)?;
    for (time, bytes) in [100, 200, 300, 400, 500].into_iter().zip(row) {
        c = sample(rt, c, time, bytes)?;
    }
    Ok(c)
}

fn sixth_sample(rt: &impl Print) -> io::Result<()> {
    println!(rt; "six samples:")?;
    let c = five(rt, [20_000, 1_000, 2_000, 3_000, 4_000])?;
    phase(rt, c, 500)?;
    sampled(rt, c, 600, 5_000)?;
    Ok(())
}

// Samples of one time: the earliest added gives way.
fn seventh_sample(rt: &impl Print) -> io::Result<()> {
    println!(rt; "seven samples:")?;
    let mut c = fresh(rt, 40_000, 0)?;
    for bytes in [1_000, 30_000, 2_000, 3_000, 4_000, 5_000] {
        c = sample(rt, c, 100, bytes)?;
    }
    phase(rt, c, 100)?;
    let seven = sample(rt, c, 100, 6_000)?;
    phase(rt, seven, 100)?;
    sample(rt, seven, 99, 6_000)?;
    Ok(())
}

fn greatest_places(rt: &impl Print) -> io::Result<()> {
    println!(rt; "the greatest sample in each place:")?;
    for row in [
        [20_000, 0, 0, 0, 0],
        [19_999, 20_000, 19_999, 19_999, 19_999],
        [0, 0, 20_000, 0, 0],
        [1, 2, 3, 20_000, 4],
        [1, 2, 3, 4, 20_000],
        [19_999, 19_999, 19_999, 19_999, 19_999],
    ] {
        let c = five(rt, row)?;
        phase(rt, c, 500)?;
    }
    Ok(())
}

fn sample_times(rt: &impl Print) -> io::Result<()> {
    println!(rt; "times of samples:")?;
    let mut c = sample(rt, idle(rt)?, 5_000, 100)?;
    sample(rt, c, 4_999, 100)?;
    sample(rt, c, 0, 100)?;
    phase(rt, c, 4_999)?;
    c = sample(rt, c, 5_000, 200)?;
    c = phase(rt, c, 6_000)?;
    sample(rt, c, 5_999, 300)?;
    phase(rt, c, 5_999)?;
    c = phase(rt, c, 6_000)?;
    c = sample(rt, c, 6_000, 300)?;
    sample(rt, c, END, 300)?;
    Ok(())
}

fn samples_out_of_range(rt: &impl Print) -> io::Result<()> {
    println!(rt; "samples and phases out of range:")?;
    let c = sample(rt, idle(rt)?, 5_000, MOST)?;
    for (time, bytes) in [(5_000, MOST + 1), (4_999, MOST + 1), (5_000, u64::MAX)] {
        sample(rt, c, time, bytes)?;
    }
    for (rtt, initial_window, time) in [
        (0, INITIAL, 5_000),
        (60_000_001, INITIAL, 5_000),
        (u64::MAX, INITIAL, 5_000),
        (RELAY, 0, 5_000),
        (RELAY, 65_536, 5_000),
        (RELAY, u64::MAX, 5_000),
        (RELAY, 65_536, 4_999),
    ] {
        phase_with(rt, c, rtt, initial_window, time)?;
    }
    Ok(())
}

fn phases_at_the_limits(rt: &impl Print) -> io::Result<()> {
    println!(rt; "phases with numbers at their limits:")?;
    let c = sample(rt, idle(rt)?, 5_000, 0)?;
    phase_with(rt, c, 1, 1, 5_000)?;
    phase_with(rt, c, 60_000_000, 65_535, 5_000)?;
    for (window, ssthresh, bytes) in [
        (MOST, MOST, MOST / 2),
        (MOST, MOST, MOST / 2 - 1),
        (1, 0, MOST),
        (1, 0, 0),
    ] {
        sampled(rt, fresh(rt, window, ssthresh)?, 5_000, bytes)?;
    }
    Ok(())
}

// A small sample of time 1,000 at a phase call: where it is too old, pipeACK is undefined.
fn ages(rt: &impl Print) -> io::Result<()> {
    println!(rt; "ages of a sample:")?;
    for (rtt, time) in [
        (1, 1_001_000),
        (1, 1_001_001),
        (333_333, 1_001_000),
        (333_333, 1_001_001),
        (333_334, 1_001_002),
        (333_334, 1_001_003),
        (400_000, 1_201_000),
        (400_000, 1_201_001),
        (60_000_000, 180_001_000),
        (60_000_000, 180_001_001),
        (60_000_000, 300_000_999),
    ] {
        let c = sample(rt, fresh(rt, 40_000, 0)?, 1_000, 10)?;
        phase_with(rt, c, rtt, INITIAL, time)?;
    }
    Ok(())
}

fn old_and_recent(rt: &impl Print) -> io::Result<()> {
    println!(rt; "an old sample beside a recent one:")?;
    let mut c = sample(rt, fresh(rt, 40_000, 0)?, 1_000, 20_000)?;
    c = sample(rt, c, 900_000, 10)?;
    phase_with(rt, c, 1, INITIAL, 1_001_000)?;
    c = phase_with(rt, c, 1, INITIAL, 1_001_001)?;
    for (rtt, time) in [(333_334, 1_001_002), (1, 1_900_000), (1, 1_900_001)] {
        phase_with(rt, c, rtt, INITIAL, time)?;
    }
    Ok(())
}

fn halves(rt: &impl Print) -> io::Result<()> {
    println!(rt; "half of the window:")?;
    for (window, bytes) in [
        (40_000, 20_001),
        (40_000, 20_000),
        (40_000, 19_999),
        (40_001, 20_001),
        (40_001, 20_000),
    ] {
        sampled(rt, fresh(rt, window, 0)?, 1_000, bytes)?;
    }
    phase(rt, fresh(rt, 40_000, 0)?, 0)?;
    Ok(())
}

// A validated phase ends the period; no time is stored then but the newest sample's.
fn validated(rt: &impl Print) -> io::Result<Connection> {
    let mut c = sample(rt, fresh(rt, 40_000, 0)?, 1_000, 10)?;
    c = phase(rt, c, 2_000)?;
    c = phase(rt, c, 3_000)?;
    c = sample(rt, c, 4_000, 20_000)?;
    c = phase(rt, c, 5_000)?;
    c = phase(rt, c, 4_000)?;
    sample(rt, c, 4_000, 10)
}

fn started_anew(rt: &impl Print) -> io::Result<()> {
    println!(rt; "a period that a validated phase ends:")?;
    let mut c = validated(rt)?;
    for time in [200_000_000, 300_002_001, 500_000_000] {
        c = sampled(rt, c, time, 10)?;
    }
    phase(rt, c, 500_000_001)?;
    Ok(())
}

fn undefined_ends(rt: &impl Print) -> io::Result<()> {
    println!(rt; "a period that an undefined pipeACK ends:")?;
    let mut c = sample(rt, fresh(rt, 40_000, 0)?, 1_000, 10)?;
    c = phase(rt, c, 2_000)?;
    c = phase(rt, c, 400_000_000)?;
    c = sampled(rt, c, 400_000_000, 10)?;
    c = sample(rt, c, 700_000_000, 10)?;
    phase(rt, c, 700_000_000)?;
    phase(rt, c, 700_000_001)?;
    Ok(())
}

fn again_and_again(rt: &impl Print) -> io::Result<Connection> {
    let mut c = sampled(rt, fresh(rt, 40_000, 0)?, 0, 10)?;
    for time in [400_000_000, 700_000_000] {
        c = sampled(rt, c, time, 10)?;
        c = phase(rt, c, time + 1)?;
    }
    Ok(c)
}

// The window falls to the initial window, and then stays.
fn down_to_the_floor(rt: &impl Print) -> io::Result<()> {
    println!(rt; "one adjustment after another:")?;
    let mut c = again_and_again(rt)?;
    for (time, bytes) in [
        (1_100_000_000, 2_499),
        (1_500_000_000, 2_189),
        (1_500_000_000, 2_190),
    ] {
        c = sampled(rt, c, time, bytes)?;
    }
    Ok(())
}

// The last two calls are the same: the first finds the window before the adjustment.
fn window_as_found(rt: &impl Print) -> io::Result<()> {
    println!(rt; "the window as the call finds it:")?;
    let mut c = fresh(rt, 40_000, 0)?;
    for time in [1_000, 300_001_001] {
        c = sampled(rt, c, time, 15_000)?;
    }
    phase(rt, c, 300_001_001)?;
    Ok(())
}

fn samples_in_states(rt: &impl Print) -> io::Result<()> {
    println!(rt; "samples and phases while asked and while quick:")?;
    let mut c = sampled(rt, asked(rt)?, 1_000, 10)?;
    c = sampled(rt, c, 300_001_001, 10)?;
    c = answer(rt, c, &GOOD)?;
    c = sampled(rt, c, 600_002_002, 10)?;
    loss(rt, c)?;
    Ok(())
}

pub fn run(rt: &impl Print) -> io::Result<()> {
    adjustments(rt)?;
    sixth_sample(rt)?;
    seventh_sample(rt)?;
    greatest_places(rt)?;
    sample_times(rt)?;
    samples_out_of_range(rt)?;
    phases_at_the_limits(rt)?;
    ages(rt)?;
    old_and_recent(rt)?;
    halves(rt)?;
    started_anew(rt)?;
    undefined_ends(rt)?;
    down_to_the_floor(rt)?;
    window_as_found(rt)?;
    samples_in_states(rt)
}
