// Runs a sender's connection: asking, responses, what ends a request, ECN echoes, samples and phases, on document 01's
// cases, at both sides of every limit, and on records made by hand. A line has the call with its numbers, the answer,
// the buffer after asking, and the record that the call left: window, ssthresh and state, then the time of the last
// request, the mark, the period's start and the samples, where it has them, the newest sample first. Of a request the
// state has the code, the TTL Diff and the nonce, and while quick the window before.
#![tactic(auto)]

use calls::{WISH, acknowledged, ask_and_take, idle, loss, phase, sample};
use sender_rules::{Connection, Wish};
use std::io;

mod calls;
mod echoes;
mod phases;
mod records;
mod requests;
mod responses;

// A connection whose window was worked out on a path with a short round trip.
fn short_path(rt: &impl Print) -> io::Result<Connection> {
    let wish = Wish {
        nonce: 5,
        rtt: 30_000,
        time: 1_000_000,
        ..WISH
    };
    let taken = ask_and_take(rt, idle(rt)?, wish)?;
    acknowledged(rt, taken, 40_000)
}

// Its window on the relay: small samples, and a period that is over.
fn unused(rt: &impl Print, came: Connection) -> io::Result<Connection> {
    let mut c = sample(rt, came, 2_000_000, 10_000)?;
    c = sample(rt, c, 2_600_000, 12_000)?;
    c = phase(rt, c, 3_000_000)?;
    c = sample(rt, c, 302_000_000, 11_000)?;
    c = sample(rt, c, 302_600_000, 9_000)?;
    c = phase(rt, c, 303_000_000)?;
    phase(rt, c, 303_000_001)
}

fn moved_to_the_relay(rt: &impl Print) -> io::Result<()> {
    println!(rt; "moved to the relay:")?;
    let lowered = unused(rt, short_path(rt)?)?;
    let time = 303_100_000;
    let c = ask_and_take(rt, lowered, Wish { time, ..WISH })?;
    for flight in [10_000, 700_000, 800_000] {
        acknowledged(rt, c, flight)?;
    }
    Ok(())
}

fn second_connection(rt: &impl Print) -> io::Result<()> {
    println!(rt; "a second connection:")?;
    let wish = Wish {
        nonce: 77,
        time: 1_000_000,
        ..WISH
    };
    let c = ask_and_take(rt, idle(rt)?, wish)?;
    let lost = loss(rt, c)?;
    loss(rt, lost)?;
    Ok(())
}

fn main(rt: HostRuntime) -> io::Result<()> {
    moved_to_the_relay(&rt)?;
    second_connection(&rt)?;
    requests::run(&rt)?;
    responses::run(&rt)?;
    echoes::run(&rt)?;
    phases::run(&rt)?;
    records::run(&rt)
}
