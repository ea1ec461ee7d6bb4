// Records made by hand. One with a number out of range is refused by every call and left unchanged; one in range is
// answered, whatever no call would have left in it.
use crate::calls::{
    END, FIELDS, GOOD, MOST, ONES, SEGMENT, acknowledged, answer, ask_at, echo, give_up, loss,
    phase, places, sample, sampled,
};
use sender_rules::{Before, Connection, OpenRequest, Sample, State};
use std::io;

fn at(time: u64, bytes: u64) -> Sample {
    Sample { time, bytes }
}

// Five samples, the newest first.
fn row() -> [Sample; 5] {
    [
        at(800, 50),
        at(700, 40),
        at(600, 30),
        at(500, 20),
        at(400, 10),
    ]
}

// The same with other bytes in a place.
fn row_with(place: usize, bytes: u64) -> [Sample; 5] {
    let mut row = row();
    if let Some(sample) = row.get_mut(place) {
        sample.bytes = bytes;
    }
    row
}

// A record made by hand, with a last request, a mark and a period.
fn made(
    window: u64,
    ssthresh: u64,
    state: State,
    count: usize,
    samples: [Sample; 5],
) -> Connection {
    Connection {
        state,
        window,
        ssthresh,
        last_request: Some(300),
        mark: Some(5_000),
        samples,
        count,
        period: Some(900),
    }
}

// A record made by hand, with samples alone.
fn made_of(samples: [Sample; 5], count: usize, period: Option<u64>) -> Connection {
    Connection {
        samples,
        count,
        period,
        ..connection::fresh_record(40_000, 0)
    }
}

fn asked_for(code: u32, nonce: u32) -> State {
    State::Asked(OpenRequest {
        code,
        ttl_diff: 192,
        nonce,
    })
}

fn quick_from(window: u64) -> State {
    State::Quick(Before { window })
}

const CALLS: u32 = 8;

// One of the calls on a record as it came.
fn call(rt: &impl Print, c: Connection, n: u32) -> io::Result<Connection> {
    match n {
        0 => ask_at(rt, c, 900_000_000),
        1 => answer(rt, c, &GOOD),
        2 => acknowledged(rt, c, 14_600),
        3 => loss(rt, c),
        4 => give_up(rt, c),
        5 => echo(rt, c, 5_001, 6_000, SEGMENT),
        6 => sample(rt, c, 900_000_000, 10),
        _ => phase(rt, c, 900_000_000),
    }
}

// Every call on a record that is out of range, and all places of its samples afterwards.
fn every_call(rt: &impl Print, what: &str, c: Connection) -> io::Result<()> {
    println!(rt; "a record {what}:")?;
    for n in 0..CALLS {
        places(rt, call(rt, c, n)?)?;
    }
    Ok(())
}

// Every call on a record. Where a sample is added, what a place holds that does not count is left open.
fn each_call(rt: &impl Print, c: Connection) -> io::Result<()> {
    for n in 0..CALLS {
        call(rt, c, n)?;
    }
    Ok(())
}

fn windows_out_of_range(rt: &impl Print) -> io::Result<()> {
    let none = made(0, 20_000, State::Idle, 2, row());
    every_call(rt, "with a window of 0", none)?;
    let much = made(MOST + 1, 20_000, asked_for(8, FIELDS), 0, row());
    every_call(rt, "with a window of 2^40 + 1", much)?;
    let high = made(14_600, MOST + 1, quick_from(1_000), 1, row());
    every_call(rt, "with an ssthresh of 2^40 + 1", high)
}

fn out_of_range(
    rt: &impl Print,
    what: &str,
    state: State,
    count: usize,
    samples: [Sample; 5],
) -> io::Result<()> {
    every_call(rt, what, made(14_600, 20_000, state, count, samples))
}

fn requests_out_of_range(rt: &impl Print) -> io::Result<()> {
    out_of_range(rt, "that asked for 0", asked_for(0, FIELDS), 3, row())?;
    out_of_range(rt, "that asked for 16", asked_for(16, FIELDS), 3, row())?;
    out_of_range(rt, "with a nonce of 2^30", asked_for(8, ONES + 1), 3, row())
}

fn befores_out_of_range(rt: &impl Print) -> io::Result<()> {
    out_of_range(rt, "with a window before of 0", quick_from(0), 4, row())?;
    let much = quick_from(MOST + 1);
    out_of_range(rt, "with a window before of 2^40 + 1", much, 4, row())
}

fn counts_out_of_range(rt: &impl Print) -> io::Result<()> {
    out_of_range(rt, "with six samples", asked_for(8, FIELDS), 6, row())?;
    let more = "with more samples than can be";
    out_of_range(rt, more, State::Idle, usize::MAX, row())
}

fn samples_above(rt: &impl Print) -> io::Result<()> {
    let newest = "with its newest sample above 2^40";
    out_of_range(rt, newest, quick_from(1_000), 1, row_with(0, MOST + 1))?;
    let earliest = "with its earliest sample above 2^40";
    out_of_range(rt, earliest, asked_for(8, FIELDS), 5, row_with(4, u64::MAX))
}

fn places_not_counted(rt: &impl Print) -> io::Result<()> {
    println!(rt; "records with places above 2^40 that do not count:")?;
    let last = row_with(4, MOST + 1);
    each_call(rt, made(14_600, 20_000, State::Idle, 4, last))?;
    let first = row_with(0, u64::MAX);
    each_call(rt, made(14_600, 20_000, asked_for(8, FIELDS), 0, first))
}

fn records_at_the_limits(rt: &impl Print) -> io::Result<()> {
    println!(rt; "records with numbers at their limits:")?;
    let much = row_with(2, MOST);
    each_call(rt, made(MOST, MOST, quick_from(MOST), 5, much))?;
    each_call(rt, made(1, 0, quick_from(1), 5, much))?;
    each_call(rt, made(1, 0, asked_for(15, ONES), 5, row()))?;
    each_call(rt, made(1, 0, asked_for(1, 0), 5, row()))
}

fn below_before(rt: &impl Print) -> io::Result<()> {
    println!(rt; "a record that is quick with a window below the one before:")?;
    each_call(rt, made(14_600, 20_000, quick_from(50_000), 2, row()))
}

fn no_last_request(rt: &impl Print) -> io::Result<()> {
    println!(rt; "records that are asked or quick with no last request:")?;
    let a = Connection {
        state: asked_for(8, FIELDS),
        ..connection::fresh_record(14_600, 20_000)
    };
    ask_at(rt, a, 0)?;
    let q = answer(rt, a, &GOOD)?;
    ask_at(rt, q, 0)?;
    let c = loss(rt, q)?;
    ask_at(rt, c, 0)?;
    Ok(())
}

// Places that do not count hold great samples, and times after the calls'.
fn places_not_looked_at(rt: &impl Print) -> io::Result<()> {
    println!(rt; "places that do not count, and their times:")?;
    let mut samples = [at(800, 50_000); 5];
    let none = made_of(samples, 0, None);
    phase(rt, none, 5)?;
    sample(rt, none, 5, 10)?;
    sampled(rt, none, 5, 10)?;
    samples[0] = at(800, 10);
    let one = made_of(samples, 1, None);
    phase(rt, one, 800)?;
    sample(rt, one, 799, 10)?;
    sampled(rt, one, 800, 20)?;
    Ok(())
}

// A sample before the newest one is later than every call: it is not older than the limit, so it counts.
fn from_the_future(rt: &impl Print) -> io::Result<()> {
    println!(rt; "a record with an older sample from the future:")?;
    let mut samples = row();
    samples[1] = at(END, 20_000);
    let mut c = made_of(samples, 5, None);
    for time in [800, 799, END] {
        phase(rt, c, time)?;
    }
    for (time, bytes) in [(900, 60), (901, 70), (902, 80)] {
        c = sample(rt, c, time, bytes)?;
    }
    phase(rt, c, 902)?;
    sampled(rt, c, 903, 90)?;
    Ok(())
}

// Two samples, the newest at the last time and the other at the first.
fn newest_at_the_end(rt: &impl Print) -> io::Result<()> {
    println!(rt; "a record with its newest sample at the end of time:")?;
    let mut samples = [at(0, 0); 5];
    samples[0] = at(END, 10);
    samples[1] = at(0, 50_000);
    let c = made_of(samples, 2, None);
    for time in [END, END - 1] {
        phase(rt, c, time)?;
    }
    for time in [END - 1, END] {
        sample(rt, c, time, 10)?;
    }
    for start in [0, END - 300_000_000, END - 300_000_001] {
        phase(rt, made_of(samples, 2, Some(start)), END)?;
    }
    Ok(())
}

pub fn run(rt: &impl Print) -> io::Result<()> {
    windows_out_of_range(rt)?;
    requests_out_of_range(rt)?;
    befores_out_of_range(rt)?;
    counts_out_of_range(rt)?;
    samples_above(rt)?;
    places_not_counted(rt)?;
    records_at_the_limits(rt)?;
    below_before(rt)?;
    no_last_request(rt)?;
    places_not_looked_at(rt)?;
    from_the_future(rt)?;
    newest_at_the_end(rt)
}
