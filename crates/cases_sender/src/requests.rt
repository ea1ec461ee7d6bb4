// Fresh records, and asking: every refusal and both sides of every limit.
use crate::calls::{
    END, GOOD, MOST, ONES, RELAY, WISH, answer, ask, ask_and_take, ask_at, ask_into, asked, fresh,
    give_up, idle,
};
use printing::Outcome;
use sender_rules::{Connection, Wish};
use std::io;

// A refused record, and what a call on it answers.
fn fresh_refused(rt: &impl Print, window: u64, ssthresh: u64) -> io::Result<()> {
    let mut c = fresh(rt, window, ssthresh)?;
    let answer = ending::give_up(&mut c).map(|()| "done");
    println!(rt; "handed to a call: {}", Outcome(answer))
}

fn fresh_records(rt: &impl Print) -> io::Result<()> {
    println!(rt; "fresh records:")?;
    for (window, ssthresh) in [(0, 0), (MOST + 1, 0), (1, MOST + 1), (END, END)] {
        fresh_refused(rt, window, ssthresh)?;
    }
    fresh(rt, 1, 0)?;
    fresh(rt, MOST, MOST)?;
    Ok(())
}

fn asking_out_of_range(rt: &impl Print) -> io::Result<()> {
    println!(rt; "asking with a number out of range:")?;
    let c = idle(rt)?;
    for code in [0, 16, u32::MAX] {
        ask(rt, c, Wish { code, ..WISH })?;
    }
    ask(rt, c, Wish { ttl: 0, ..WISH })?;
    for nonce in [ONES + 1, u32::MAX] {
        ask(rt, c, Wish { nonce, ..WISH })?;
    }
    for rtt in [0, 60_000_001, u64::MAX] {
        ask(rt, c, Wish { rtt, ..WISH })?;
    }
    Ok(())
}

fn asking_into_buffers(rt: &impl Print) -> io::Result<()> {
    println!(rt; "asking into other buffers:")?;
    let c = idle(rt)?;
    let mut nine = [0xeeu8; 9];
    ask_into(rt, c, WISH, &mut nine[..0])?;
    ask_into(rt, c, WISH, &mut nine[..7])?;
    ask_into(rt, c, WISH, &mut nine)?;
    Ok(())
}

fn asking_at_the_limits(rt: &impl Print) -> io::Result<()> {
    println!(rt; "asking with numbers at their limits:")?;
    let c = idle(rt)?;
    let least = Wish {
        code: 1,
        ttl: 1,
        qs_ttl: 0,
        nonce: 0,
        rtt: 1,
        time: 0,
    };
    ask(rt, c, least)?;
    let greatest = Wish {
        code: 15,
        ttl: 255,
        qs_ttl: 255,
        nonce: ONES,
        rtt: 60_000_000,
        time: END,
    };
    ask(rt, c, greatest)?;
    Ok(())
}

// Requests with these starting TTLs, and the answers.
fn starting_ttls(rt: &impl Print) -> io::Result<()> {
    println!(rt; "starting TTLs:")?;
    for (ttl, qs_ttl) in [
        (64, 0),
        (64, 64),
        (64, 65),
        (64, 128),
        (64, 255),
        (1, 0),
        (1, 255),
        (255, 0),
        (255, 255),
    ] {
        let c = idle(rt)?;
        ask_and_take(
            rt,
            c,
            Wish {
                ttl,
                qs_ttl,
                ..WISH
            },
        )?;
    }
    Ok(())
}

fn ask_for(rt: &impl Print, c: Connection, code: u32, rtt: u64, time: u64) -> io::Result<()> {
    let wish = Wish {
        code,
        rtt,
        time,
        ..WISH
    };
    ask(rt, c, wish)?;
    Ok(())
}

fn asking_too_soon(rt: &impl Print) -> io::Result<()> {
    println!(rt; "asking too soon:")?;
    let c = asked(rt)?;
    for (code, time) in [(8, 1_000_000), (8, 900_000_000), (8, 999_999), (0, 999_999)] {
        ask_for(rt, c, code, RELAY, time)?;
    }
    let q = answer(rt, c, &GOOD)?;
    for (code, time) in [(8, 900_000_000), (8, 999_999), (16, 900_000_000)] {
        ask_for(rt, q, code, RELAY, time)?;
    }
    Ok(())
}

// After a request that was given up.
fn asking_again(rt: &impl Print) -> io::Result<()> {
    println!(rt; "asking again:")?;
    let c = give_up(rt, asked(rt)?)?;
    for (code, rtt, time) in [
        (8, RELAY, 999_999),
        (16, RELAY, 999_999),
        (8, RELAY, 1_000_000),
        (8, RELAY, 1_599_999),
        (8, RELAY, 1_600_000),
        (8, RELAY, 1_600_001),
        (8, 1, 1_000_000),
        (8, 1, 1_000_001),
        (8, 60_000_000, 60_999_999),
        (8, 60_000_000, 61_000_000),
    ] {
        ask_for(rt, c, code, rtt, time)?;
    }
    Ok(())
}

fn asking_at_the_end_of_time(rt: &impl Print) -> io::Result<()> {
    println!(rt; "asking at the end of time:")?;
    let c = give_up(rt, ask_at(rt, idle(rt)?, END - 10)?)?;
    for (rtt, time) in [(RELAY, END), (11, END), (10, END), (10, 0)] {
        ask_for(rt, c, 8, rtt, time)?;
    }
    Ok(())
}

pub fn run(rt: &impl Print) -> io::Result<()> {
    fresh_records(rt)?;
    asking_out_of_range(rt)?;
    asking_into_buffers(rt)?;
    asking_at_the_limits(rt)?;
    starting_ttls(rt)?;
    asking_too_soon(rt)?;
    asking_again(rt)?;
    asking_at_the_end_of_time(rt)
}
