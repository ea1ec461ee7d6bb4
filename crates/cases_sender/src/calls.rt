// The calls of a connection, each printed as a line: the call with its numbers, the answer, the buffer after asking, and
// the record as the call left it, which is handed on. A record is taken by value, so that a case can go on from any.
use connection::MOST_SAMPLES;
use printing::{Bytes, Outcome, Refused};
use refusals::Refusal;
use sender_rules::{Connection, Sample, State, Wish};
use std::fmt::Display;
use std::{fmt, io};
use wire_rules::Transport;

// The relay's round trip, a segment, its headers and the initial window.
pub const RELAY: u64 = 600_000;

pub const SEGMENT: u64 = 1_460;

pub const HEADERS: u64 = 40;

pub const INITIAL: u64 = 4_380;

// The most bytes of a window, of ssthresh, of a flight and of a sample, 2^40.
pub const MOST: u64 = 1_099_511_627_776;

// The last time, 2^64 - 1.
pub const END: u64 = u64::MAX;

// The greatest nonce: every bit of it is set.
pub const ONES: u32 = 1_073_741_823;

// A nonce of the fields 2, 1, 0, five times.
pub const FIELDS: u32 = 613_566_756;

// Asking for 8 on the relay at time 0.
pub const WISH: Wish = Wish {
    code: 8,
    ttl: 64,
    qs_ttl: 128,
    nonce: FIELDS,
    rtt: RELAY,
    time: 0,
};

// The relay, and the response there to a request for 8 with that nonce, sent with an IP TTL of 64 and a QS TTL of 128.
pub const TRANSPORT: Transport = Transport {
    rtt: RELAY,
    mss: SEGMENT,
    headers: HEADERS,
};

pub const GOOD: [u8; 8] = *b"\x1b\x08\x08\xc0\x92\x49\x24\x90";

// No response, nor a request.
pub const NEITHER: [u8; 8] = [0xee; 8];

// ---- a record in a line

#[derive(Drop)]
struct Status(State);

impl Display for Status {
    fn fmt<W: fmt::Write>(&self, f: &mut fmt::Formatter<W>) -> fmt::Result {
        match self.0 {
            State::Idle => write!(f, "idle"),
            State::Asked(open) => {
                write!(f, "asked {} {} {}", open.code, open.ttl_diff, open.nonce)
            }
            State::Quick(before) => write!(f, "quick {}", before.window),
        }
    }
}

// A number behind its name, if there is one.
#[derive(Drop)]
struct Stored(&'static str, Option<u64>);

impl Display for Stored {
    fn fmt<W: fmt::Write>(&self, f: &mut fmt::Formatter<W>) -> fmt::Result {
        match self.1 {
            Some(n) => write!(f, " {} {n}", self.0),
            None => Ok(()),
        }
    }
}

#[derive(Drop)]
struct Samples<'a>(&'a [Sample]);

impl Display for Samples<'_> {
    fn fmt<W: fmt::Write>(&self, f: &mut fmt::Formatter<W>) -> fmt::Result {
        for (place, sample) in self.0.iter().enumerate() {
            let comma = if place > 0 { "," } else { "" };
            write!(f, "{comma} {} at {}", sample.bytes, sample.time)?;
        }
        Ok(())
    }
}

// The samples that count, up to the places that there are.
#[derive(Drop)]
struct Counted<'a>(&'a Connection);

impl Display for Counted<'_> {
    fn fmt<W: fmt::Write>(&self, f: &mut fmt::Formatter<W>) -> fmt::Result {
        let count = self.0.count.min(MOST_SAMPLES);
        if count == 0 {
            return Ok(());
        }
        write!(f, "; samples{}", Samples(&self.0.samples[..count]))
    }
}

#[derive(Drop)]
struct Record(Connection);

impl Display for Record {
    fn fmt<W: fmt::Write>(&self, f: &mut fmt::Formatter<W>) -> fmt::Result {
        let c = &self.0;
        write!(
            f,
            "; window {} ssthresh {} {}",
            c.window,
            c.ssthresh,
            Status(c.state)
        )?;
        let mark = c.mark.map(|highest| highest as u64);
        write!(
            f,
            "{}{}",
            Stored("last", c.last_request),
            Stored("mark", mark)
        )?;
        write!(f, "{}{}", Stored("period", c.period), Counted(c))
    }
}

// All places of a record's samples, also those that do not count.
pub fn places(rt: &impl Print, c: Connection) -> io::Result<()> {
    println!(rt; "places, count {}:{}", c.count, Samples(&c.samples))
}

// ---- calls

// A fresh record. Of one that is refused the line has the refusal alone.
pub fn fresh(rt: &impl Print, window: u64, ssthresh: u64) -> io::Result<Connection> {
    print!(rt; "fresh {window} {ssthresh}: ")?;
    let opened = connection::fresh(window, ssthresh);
    match opened.answer {
        Ok(()) => println!(rt; "ready{}", Record(opened.connection))?,
        Err(why) => println!(rt; "{}", Refused(why))?,
    }
    Ok(opened.connection)
}

// The end of a call's line.
fn left(rt: &impl Print, answer: Result<&str, Refusal>, c: Connection) -> io::Result<Connection> {
    println!(rt; ": {}{}", Outcome(answer), Record(c))?;
    Ok(c)
}

// The same for a call that answers no more than that it was done.
fn left_done(
    rt: &impl Print,
    answer: Result<(), Refusal>,
    c: Connection,
) -> io::Result<Connection> {
    left(rt, answer.map(|()| "done"), c)
}

// The same for a call that answers whether something is so.
fn left_whether(
    rt: &impl Print,
    answer: Result<bool, Refusal>,
    yes: &str,
    no: &str,
    c: Connection,
) -> io::Result<Connection> {
    left(rt, answer.map(|so| if so { yes } else { no }), c)
}

pub fn ask_into(
    rt: &impl Print,
    mut c: Connection,
    wish: Wish,
    request: &mut [u8],
) -> io::Result<Connection> {
    print!(rt;
        "ask {} ttl {} {} nonce {}",
        wish.code, wish.ttl, wish.qs_ttl, wish.nonce
    )?;
    print!(rt; " T {} at {}", wish.rtt, wish.time)?;
    let answer = asking::ask(&mut c, wish, request).map(|()| "written");
    println!(rt; ": {},{}{}", Outcome(answer), Bytes(request), Record(c))?;
    Ok(c)
}

// Asking into a buffer of eight bytes, which hold something before.
pub fn ask(rt: &impl Print, c: Connection, wish: Wish) -> io::Result<Connection> {
    let mut request = NEITHER;
    ask_into(rt, c, wish, &mut request)
}

pub fn respond(
    rt: &impl Print,
    mut c: Connection,
    response: &[u8],
    transport: Transport,
) -> io::Result<Connection> {
    let Transport { rtt, mss, headers } = transport;
    print!(rt;
        "take response{} T {rtt} MSS {mss} H {headers}",
        Bytes(response)
    )?;
    match accepting::take_response(&mut c, response, transport) {
        Ok(rate) => println!(rt; ": accepted {rate}{}", Record(c))?,
        Err(why) => println!(rt; ": {}{}", Refused(why), Record(c))?,
    }
    Ok(c)
}

pub fn acknowledged(rt: &impl Print, mut c: Connection, flight: u64) -> io::Result<Connection> {
    print!(rt; "acknowledged {flight}")?;
    let answer = ending::first_acknowledgement(&mut c, flight);
    left_done(rt, answer, c)
}

pub fn loss(rt: &impl Print, mut c: Connection) -> io::Result<Connection> {
    print!(rt; "loss")?;
    let answer = ending::loss(&mut c);
    left_done(rt, answer, c)
}

pub fn give_up(rt: &impl Print, mut c: Connection) -> io::Result<Connection> {
    print!(rt; "give up")?;
    let answer = ending::give_up(&mut c);
    left_done(rt, answer, c)
}

pub fn echo(
    rt: &impl Print,
    mut c: Connection,
    acknowledgement: u32,
    highest: u32,
    mss: u64,
) -> io::Result<Connection> {
    print!(rt; "echo {acknowledgement} highest {highest} MSS {mss}")?;
    let answer = echo::echo(&mut c, acknowledgement, highest, mss);
    left_whether(rt, answer, "reacted", "ignored", c)
}

pub fn sample(rt: &impl Print, mut c: Connection, time: u64, bytes: u64) -> io::Result<Connection> {
    print!(rt; "sample {bytes} at {time}")?;
    let answer = sampling::sample(&mut c, Sample { time, bytes });
    left_done(rt, answer, c)
}

pub fn phase_with(
    rt: &impl Print,
    mut c: Connection,
    rtt: u64,
    initial_window: u64,
    time: u64,
) -> io::Result<Connection> {
    print!(rt; "phase T {rtt} IW {initial_window} at {time}")?;
    let answer = phase::phase(&mut c, rtt, initial_window, time);
    left_whether(rt, answer, "validated", "non-validated", c)
}

// ---- calls on the relay

// Asking for 8.
pub fn ask_at(rt: &impl Print, c: Connection, time: u64) -> io::Result<Connection> {
    ask(rt, c, Wish { time, ..WISH })
}

pub fn answer(rt: &impl Print, c: Connection, response: &[u8]) -> io::Result<Connection> {
    respond(rt, c, response, TRANSPORT)
}

// Asking, and the response where no router lowered the request: its rate, its nonce, and the TTL Diff, which every router
// keeps.
pub fn ask_and_take(rt: &impl Print, c: Connection, wish: Wish) -> io::Result<Connection> {
    let mut option = NEITHER;
    let sent = ask_into(rt, c, wish, &mut option)?;
    option[0] = 27;
    option[3] = wish.ttl.wrapping_sub(option[3]);
    let transport = Transport {
        rtt: wish.rtt,
        ..TRANSPORT
    };
    respond(rt, sent, &option, transport)
}

pub fn phase(rt: &impl Print, c: Connection, time: u64) -> io::Result<Connection> {
    phase_with(rt, c, RELAY, INITIAL, time)
}

// A sample and the phase at its time.
pub fn sampled(rt: &impl Print, c: Connection, time: u64, bytes: u64) -> io::Result<Connection> {
    let held = sample(rt, c, time, bytes)?;
    phase(rt, held, time)
}

pub fn idle(rt: &impl Print) -> io::Result<Connection> {
    fresh(rt, 14_600, 20_000)
}

pub fn asked(rt: &impl Print) -> io::Result<Connection> {
    ask_at(rt, idle(rt)?, 1_000_000)
}

pub fn quick(rt: &impl Print) -> io::Result<Connection> {
    answer(rt, asked(rt)?, &GOOD)
}
