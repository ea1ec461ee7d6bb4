// ECN echoes: marks on the whole circle of numbers, and windows down to a segment.
use crate::calls::{GOOD, MOST, SEGMENT, answer, asked, echo, fresh};
use std::io;

// The highest number of a segment, 2^32 - 1, and the middle of the numbers, 2^31.
const LAST: u32 = u32::MAX;

const MIDDLE: u32 = 2_147_483_648;

fn echoes(rt: &impl Print) -> io::Result<()> {
    println!(rt; "echoes:")?;
    let mut c = fresh(rt, 40_000, 30_000)?;
    for (acknowledgement, highest) in [
        (1_000, 5_000),
        (1_000, 6_000),
        (4_999, 6_500),
        (5_000, 7_000),
        (5_001, 9_000),
        (5_001, 9_500),
    ] {
        c = echo(rt, c, acknowledgement, highest, SEGMENT)?;
    }
    for acknowledgement in [MIDDLE + 8_999, MIDDLE + 9_000, MIDDLE + 9_001, LAST] {
        echo(rt, c, acknowledgement, 9_800, SEGMENT)?;
    }
    Ok(())
}

// An echo with a mark.
fn echo_after(rt: &impl Print, mark: u32, acknowledgement: u32) -> io::Result<()> {
    let c = echo(rt, fresh(rt, 40_000, 30_000)?, 1, mark, SEGMENT)?;
    echo(rt, c, acknowledgement, 77, SEGMENT)?;
    Ok(())
}

fn echoes_on_the_circle(rt: &impl Print) -> io::Result<()> {
    println!(rt; "echoes on the circle of numbers:")?;
    for (mark, acknowledgement) in [
        (LAST, 0),
        (LAST, LAST),
        (LAST, LAST - 1),
        (LAST, MIDDLE - 2),
        (LAST, MIDDLE - 1),
        (LAST - 4, 3),
        (LAST - 4, MIDDLE - 6),
        (LAST - 4, MIDDLE - 5),
    ] {
        echo_after(rt, mark, acknowledgement)?;
    }
    Ok(())
}

fn echoes_from_the_ends(rt: &impl Print) -> io::Result<()> {
    println!(rt; "echoes with a mark at 0 and at the middle:")?;
    for acknowledgement in [0, 1, MIDDLE - 1, MIDDLE, LAST] {
        echo_after(rt, 0, acknowledgement)?;
    }
    for acknowledgement in [MIDDLE + 1, LAST, 0, MIDDLE - 1] {
        echo_after(rt, MIDDLE, acknowledgement)?;
    }
    Ok(())
}

fn echo_floors(rt: &impl Print) -> io::Result<()> {
    println!(rt; "windows after an echo:")?;
    for (window, ssthresh, mss) in [
        (2_922, 0, SEGMENT),
        (2_921, 0, SEGMENT),
        (2_920, 0, SEGMENT),
        (2_919, 0, SEGMENT),
        (1_461, 0, SEGMENT),
        (1_460, 0, SEGMENT),
        (1_459, 9_000, SEGMENT),
        (1, MOST, SEGMENT),
        (1, 0, 1),
        (3, 0, 1),
        (MOST, 0, 65_535),
        (131_071, 0, 65_535),
        (131_072, 0, 65_535),
    ] {
        echo(rt, fresh(rt, window, ssthresh)?, 1, 5_000, mss)?;
    }
    Ok(())
}

fn echoes_in_states(rt: &impl Print) -> io::Result<()> {
    println!(rt; "echoes out of range, and in every state:")?;
    let c = fresh(rt, 40_000, 30_000)?;
    for mss in [0, 65_536, u64::MAX] {
        echo(rt, c, 1, 5_000, mss)?;
    }
    let marked = echo(rt, c, 1, 5_000, SEGMENT)?;
    echo(rt, marked, 1, 6_000, 0)?;
    let a = asked(rt)?;
    echo(rt, a, 0, 0, SEGMENT)?;
    let b = echo(rt, a, LAST, LAST, SEGMENT)?;
    answer(rt, b, &GOOD)?;
    Ok(())
}

pub fn run(rt: &impl Print) -> io::Result<()> {
    echoes(rt)?;
    echoes_on_the_circle(rt)?;
    echoes_from_the_ends(rt)?;
    echo_floors(rt)?;
    echoes_in_states(rt)
}
