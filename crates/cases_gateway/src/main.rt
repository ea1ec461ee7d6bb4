// Runs packets through a router, a router with a ledger, a silent router and a receiver, and prints what they
// answer and leave. A line has the packet's name, the call with its numbers (ceiling, fresh nonce, tick), the
// answer, and what the call left, after a refusal too: the packet's bytes after a router, with the ledger's
// record and slots before them where it has one, and the response's bytes after a receiver. A packet is document 01's or
// the one called mixed below, with the bytes changed that its name tells and the checksum of that header; its
// last eight bytes are the option.
#![tactic(auto)]

use gateway_rules::{Ledger, Reaction};
use printing::{Bytes, Numbers, Outcome};
use refusals::Refusal;
use std::io;

// The packet that document 01 works out.
const DOCUMENT_01: [u8; 28] =
    *b"\x47\x00\x00\x1c\x00\x00\x00\x00\x40\x06\x46\x52\x0a\x00\x00\x01\x0a\x00\x00\x02\x19\x08\x05\x80\x00\x00\x00\x00";

// Mixed: the same with a QS TTL of 3, a nonce whose fields differ, and both reserved bits set.
const MIXED: [u8; 28] =
    *b"\x47\x00\x00\x1c\x00\x00\x00\x00\x40\x06\x55\x24\x0a\x00\x00\x01\x0a\x00\x00\x02\x19\x08\x05\x03\x5a\xc3\x96\xe7";

// A longer header, with an option of another type before the request, and four bytes of data.
const LONG: [u8; 40] =
    *b"\x49\x00\x00\x28\x12\x34\x40\x00\x40\x06\x2d\x24\xc0\xa8\x01\x01\xc0\xa8\x01\x02\x1e\x08\x00\x00\x11\x22\x33\x44\x19\x08\x07\x03\x5a\xc3\x96\xe7\x19\x08\x0f\xff";

// Where bytes stand in the first two packets. The byte of the rate has the function in its high half.
const TTL: usize = 8;

const OPTION_TYPE: usize = 20;

const OPTION_LENGTH: usize = 21;

const RATE: usize = 22;

const QS_TTL: usize = 23;

// The greatest nonce: every bit of it is set.
const ONES: u32 = 1_073_741_823;

// A nonce of the fields 2, 1, 0, five times.
const FIELDS: u32 = 613_566_756;

// The greatest allowance.
const MOST: u64 = 1 << 40;

// The allowance of the smaller links: the rate of code 7.
const ALLOWANCE: u64 = 5_120_000;

// A half of 2^64.
const HALF: u64 = 1 << 63;

// The sum of the header's words, with each carry added at once.
fn sum(p: [u8; 28]) -> u16 {
    let mut total = 0u16;
    for i in 0..14 {
        let word = u16::from_be_bytes([p[2 * i], p[2 * i + 1]]);
        let (next, carried) = total.overflowing_add(word);
        total = next.wrapping_add(carried as u16);
    }
    total
}

// The packet with another byte at a place, and the checksum of that header.
fn with(mut packet: [u8; 28], at: usize, byte: u8) -> [u8; 28] {
    packet[at % 28] = byte;
    packet[10] = 0;
    packet[11] = 0;
    let checksum = !sum(packet);
    packet[10..12].copy_from_slice(&checksum.to_be_bytes());
    packet
}

// Document 01's packet with another byte at a place.
fn plain(at: usize, byte: u8) -> [u8; 28] {
    with(DOCUMENT_01, at, byte)
}

// The mixed packet with another byte at a place.
fn mixed(at: usize, byte: u8) -> [u8; 28] {
    with(MIXED, at, byte)
}

fn show(rt: &impl Print, name: &str, packet: &[u8]) -> io::Result<()> {
    println!(rt; "{name}: packet{}", Bytes(packet))
}

fn done(answer: Result<(), Refusal>) -> Outcome<&'static str> {
    Outcome(answer.map(|()| "done"))
}

// A router on a packet, which is handed back as the call left it.
fn route<const N: usize>(
    rt: &impl Print,
    name: &str,
    mut packet: [u8; N],
    ceiling: u32,
    fresh: u32,
) -> io::Result<[u8; N]> {
    let answer = done(router::router(&mut packet, ceiling, fresh));
    println!(rt;
        "{name}: router {ceiling} {fresh}: {answer},{}",
        Bytes(&packet)
    )?;
    Ok(packet)
}

// A silent router, likewise.
fn pass<const N: usize>(rt: &impl Print, name: &str, mut packet: [u8; N]) -> io::Result<[u8; N]> {
    let answer = done(router::silent_router(&mut packet));
    println!(rt; "{name}: silent router: {answer},{}", Bytes(&packet))?;
    Ok(packet)
}

// A receiver of a packet, with a buffer for the response.
fn receive_into<const N: usize>(
    rt: &impl Print,
    name: &str,
    packet: &[u8],
    ceiling: u32,
    mut response: [u8; N],
) -> io::Result<()> {
    let answer = receiver::receiver(packet, ceiling, &mut response).map(
        |reaction| match reaction {
            Reaction::Answered => "answered",
            Reaction::Unanswered => "unanswered",
        },
    );
    println!(rt;
        "{name}: receiver {ceiling}: {},{}",
        Outcome(answer),
        Bytes(&response)
    )
}

// A receiver with a buffer of eight bytes, which hold something before.
fn receive(rt: &impl Print, name: &str, packet: &[u8], ceiling: u32) -> io::Result<()> {
    receive_into(rt, name, packet, ceiling, [0xee; 8])
}

// A link: its row of slots, and its record.
#[derive(Clone, Copy)]
struct Link<const N: usize> {
    row: [u64; N],
    ledger: Ledger,
}

impl<const N: usize> Link<N> {
    // A row at tick 8.
    fn new(row: [u64; N], allowance: u64) -> Self {
        let ledger = Ledger { tick: 8, allowance };
        Link { row, ledger }
    }

    // A router with the link's ledger, on a packet as it came. The line has its start already.
    fn route(
        &mut self,
        rt: &impl Print,
        mut packet: [u8; 28],
        ceiling: u32,
        fresh: u32,
        tick: u64,
    ) -> io::Result<()> {
        let Link { row, ledger } = self;
        let answer = router::router_with_ledger(&mut packet, ceiling, fresh, row, ledger, tick);
        print!(rt;
            ": ledger router {ceiling} {fresh} at {tick}: {}",
            done(answer)
        )?;
        print!(rt;
            ", tick {} allowance {}",
            self.ledger.tick, self.ledger.allowance
        )?;
        println!(rt; " slots{},{}", Numbers(&self.row), Bytes(&packet))
    }
}

// A router with a ceiling of 15 and a ledger.
fn ledger_router<const N: usize>(
    rt: &impl Print,
    name: &str,
    packet: [u8; 28],
    mut link: Link<N>,
) -> io::Result<()> {
    print!(rt; "{name}")?;
    link.route(rt, packet, 15, ONES, 9)
}

// The three routers and the receiver, each on the packet as it came.
fn all(rt: &impl Print, name: &str, packet: [u8; 28]) -> io::Result<()> {
    route(rt, name, packet, 3, ONES)?;
    ledger_router(rt, name, packet, Link::new([0; 2], 1_000_000))?;
    pass(rt, name, packet)?;
    receive(rt, name, &packet, 15)
}

fn document_01(rt: &impl Print) -> io::Result<()> {
    let name = "document 01";
    show(rt, name, &DOCUMENT_01)?;
    let lowered = route(rt, name, DOCUMENT_01, 3, ONES)?;
    receive(rt, name, &lowered, 15)?;
    let passed = pass(rt, name, DOCUMENT_01)?;
    receive(rt, name, &passed, 15)
}

// One packet on a way of several routers: lowered by none, by steps, passed by a silent one, and denied in the end.
fn in_turn(rt: &impl Print) -> io::Result<()> {
    let name = "in turn";
    let mut p = mixed(RATE, 15);
    show(rt, name, &p)?;
    p = route(rt, name, p, 15, ONES)?;
    p = route(rt, name, p, 9, FIELDS)?;
    p = pass(rt, name, p)?;
    p = route(rt, name, p, 8, ONES)?;
    p = route(rt, name, p, 4, FIELDS)?;
    p = route(rt, name, p, 6, ONES)?;
    receive(rt, name, &p, 3)?;
    p = route(rt, name, p, 0, ONES)?;
    receive(rt, name, &p, 15)?;
    route(rt, name, p, 7, ONES)?;
    Ok(())
}

fn ttls(rt: &impl Print) -> io::Result<()> {
    let name = "ttl 2";
    let came = plain(TTL, 2);
    let routed = route(rt, name, came, 15, 0)?;
    route(rt, name, routed, 15, 0)?;
    receive(rt, name, &routed, 15)?;
    let passed = pass(rt, name, came)?;
    pass(rt, name, passed)?;
    all(rt, "ttl 1", plain(TTL, 1))?;
    all(rt, "ttl 0", plain(TTL, 0))
}

fn ceilings(rt: &impl Print) -> io::Result<()> {
    let name = "mixed, rate 5";
    show(rt, name, &MIXED)?;
    for (ceiling, fresh) in [(5, ONES), (15, ONES), (4, ONES), (1, FIELDS), (0, ONES)] {
        route(rt, name, MIXED, ceiling, fresh)?;
    }
    for ceiling in [5, 15, 4, 0] {
        receive(rt, name, &MIXED, ceiling)?;
    }
    Ok(())
}

fn end_rates(rt: &impl Print) -> io::Result<()> {
    let top = mixed(RATE, 15);
    route(rt, "mixed, rate 15", top, 14, ONES)?;
    route(rt, "mixed, rate 15", top, 1, ONES)?;
    let low = mixed(RATE, 1);
    route(rt, "mixed, rate 1", low, 1, ONES)?;
    route(rt, "mixed, rate 1", low, 0, ONES)?;
    let none = mixed(RATE, 0);
    all(rt, "mixed, rate 0", none)?;
    route(rt, "mixed, rate 0", none, 0, ONES)?;
    Ok(())
}

fn no_requests(rt: &impl Print) -> io::Result<()> {
    let report = mixed(RATE, 0x85);
    all(rt, "report", report)?;
    route(rt, "report", report, 0, ONES)?;
    let other = mixed(RATE, 0x35);
    route(rt, "function 3", other, 3, ONES)?;
    receive(rt, "function 3", &other, 15)?;
    all(rt, "no option", mixed(OPTION_TYPE, 0))
}

// A QS TTL of 0 is no denial: a random start reaches it.
fn qs_ttls(rt: &impl Print) -> io::Result<()> {
    let zero = plain(QS_TTL, 0);
    receive(rt, "qs ttl 0", &zero, 15)?;
    let lowered = route(rt, "qs ttl 0", zero, 3, ONES)?;
    receive(rt, "qs ttl 0", &lowered, 15)?;
    let one = route(rt, "qs ttl 1", plain(QS_TTL, 1), 3, ONES)?;
    route(rt, "qs ttl 1", one, 3, ONES)?;
    Ok(())
}

fn long_header(rt: &impl Print) -> io::Result<()> {
    let name = "long header";
    show(rt, name, &LONG)?;
    receive(rt, name, &LONG, 15)?;
    let lowered = route(rt, name, LONG, 4, FIELDS)?;
    let passed = pass(rt, name, lowered)?;
    route(rt, name, passed, 0, FIELDS)?;
    Ok(())
}

fn two_requests(rt: &impl Print) -> io::Result<()> {
    let name = "two requests";
    let mut p = LONG;
    p[10] = 0x32;
    p[OPTION_TYPE] = 0x19;
    p = route(rt, name, p, 4, FIELDS)?;
    receive(rt, name, &p, 15)?;
    pass(rt, name, p)?;
    Ok(())
}

fn faults(rt: &impl Print) -> io::Result<()> {
    all(rt, "total length 29", plain(3, 29))?;
    let mut p = DOCUMENT_01;
    p[11] = 0x53;
    all(rt, "wrong checksum", p)?;
    all(rt, "option length 0", plain(OPTION_LENGTH, 0))?;
    all(rt, "option length 7", plain(OPTION_LENGTH, 7))
}

// Two faults in a call: the first in the order of the tests is named.
fn two_faults(rt: &impl Print) -> io::Result<()> {
    let mut p = DOCUMENT_01;
    p[0] = 0x67;
    route(rt, "version 6, wrong checksum", p, 3, ONES)?;
    route(rt, "version 6, ceiling 16", p, 16, ONES)?;
    receive(rt, "version 6, ceiling 16", &p, 16)?;
    let three = "wrong checksum, option length 0, ttl 1";
    p = plain(TTL, 1);
    p[OPTION_LENGTH] = 0;
    route(rt, three, p, 3, ONES)?;
    pass(rt, three, p)?;
    Ok(())
}

fn options_before_ttl(rt: &impl Print) -> io::Result<()> {
    let three = with(plain(TTL, 1), OPTION_LENGTH, 0);
    route(rt, "option length 0, ttl 1", three, 3, ONES)?;
    pass(rt, "option length 0, ttl 1", three)?;
    receive(rt, "option length 0, ttl 1", &three, 15)?;
    let five = with(three, OPTION_LENGTH, 7);
    route(rt, "option length 7, ttl 1", five, 3, ONES)?;
    pass(rt, "option length 7, ttl 1", five)?;
    Ok(())
}

fn out_of_range(rt: &impl Print) -> io::Result<()> {
    let name = "out of range";
    for (ceiling, fresh) in [(16, 0), (15, ONES + 1), (u32::MAX, u32::MAX)] {
        route(rt, name, DOCUMENT_01, ceiling, fresh)?;
    }
    receive(rt, name, &DOCUMENT_01, 16)?;
    receive_into(rt, name, &DOCUMENT_01, 15, [0xee; 7])?;
    receive_into(rt, name, &DOCUMENT_01, 15, [0xee; 9])
}

// A router with a ledger whose row has so many slots, at the ends of their range and beyond them.
fn rows(rt: &impl Print) -> io::Result<()> {
    ledger_router(rt, "64 slots", DOCUMENT_01, Link::new([7; 64], MOST))?;
    ledger_router(rt, "65 slots", DOCUMENT_01, Link::new([7; 65], MOST))?;
    ledger_router(rt, "one slot", DOCUMENT_01, Link::new([7; 1], MOST))?;
    ledger_router(rt, "no slot", DOCUMENT_01, Link::new([7; 0], MOST))
}

// A router with a ledger, on the link as it came.
fn lent(
    rt: &impl Print,
    name: &str,
    packet: [u8; 28],
    mut link: Link<4>,
    ceiling: u32,
    fresh: u32,
    tick: u64,
) -> io::Result<()> {
    print!(rt; "{name}")?;
    link.route(rt, packet, ceiling, fresh, tick)
}

// 7 comes before the packet's faults.
fn links_out_of_range(rt: &impl Print) -> io::Result<()> {
    let link = Link::new([7; 4], MOST);
    let over = Link::new([7; 4], MOST + 1);
    lent(rt, "link out of range", DOCUMENT_01, over, 15, ONES, 9)?;
    let name = "version 6, link out of range";
    let mut p = DOCUMENT_01;
    p[0] = 0x67;
    lent(rt, name, p, over, 15, ONES, 9)?;
    lent(rt, name, p, link, 16, ONES, 9)?;
    lent(rt, name, p, link, 15, ONES + 1, 9)
}

// 8 comes after the packet's faults and before 9, and only where the ledger is asked.
fn over_allowance(rt: &impl Print) -> io::Result<()> {
    let link = Link::new([5_000_000, 120_001, 0, 0], ALLOWANCE);
    for (ceiling, tick) in [(15, 8), (15, 12), (15, 7), (0, 7)] {
        lent(
            rt,
            "over the allowance",
            DOCUMENT_01,
            link,
            ceiling,
            ONES,
            tick,
        )?;
    }
    lent(
        rt,
        "rate 0, over the allowance",
        plain(RATE, 0),
        link,
        15,
        ONES,
        7,
    )?;
    lent(
        rt,
        "ttl 1, over the allowance",
        plain(TTL, 1),
        link,
        15,
        ONES,
        7,
    )?;
    let wraps = Link::new([HALF, HALF, 0, 0], ALLOWANCE);
    lent(rt, "sum of 2^64", DOCUMENT_01, wraps, 15, ONES, 8)
}

// 9 comes after the packet's faults too, and only where the ledger is asked. A row whose total is the allowance
// is no fault: it has no room, and here none after a tick either.
fn tick_before(rt: &impl Print) -> io::Result<()> {
    let link = Link::new([5_060_000, 60_000, 0, 0], ALLOWANCE);
    for (ceiling, tick) in [(15, 8), (15, 9), (15, 7), (0, 7)] {
        lent(
            rt,
            "at the allowance",
            DOCUMENT_01,
            link,
            ceiling,
            ONES,
            tick,
        )?;
    }
    lent(
        rt,
        "ttl 1, at the allowance",
        plain(TTL, 1),
        link,
        15,
        ONES,
        7,
    )
}

// A packet with this rate to the shared ledger's router.
fn asks(rt: &impl Print, link: &mut Link<4>, rate: u8, ceiling: u32, tick: u64) -> io::Result<()> {
    print!(rt; "shared ledger, rate {rate}")?;
    link.route(rt, mixed(RATE, rate), ceiling, FIELDS, tick)
}

// A packet without a request, or with a fault, to the same router.
fn does_not_ask(
    rt: &impl Print,
    link: &mut Link<4>,
    name: &str,
    packet: [u8; 28],
    tick: u64,
) -> io::Result<()> {
    print!(rt; "shared ledger, {name}")?;
    link.route(rt, packet, 15, FIELDS, tick)
}

// Grants in full and for less. A router that would ask for the rate would charge more for the second packet.
fn filling(rt: &impl Print, link: &mut Link<4>) -> io::Result<()> {
    asks(rt, link, 6, 15, 8)?;
    asks(rt, link, 15, 5, 8)?;
    asks(rt, link, 15, 15, 9)
}

// No room is left: packets are denied, and the tick moves on all the same, but not where the ledger is not asked.
fn full(rt: &impl Print, link: &mut Link<4>) -> io::Result<()> {
    asks(rt, link, 3, 15, 9)?;
    asks(rt, link, 1, 1, 11)?;
    asks(rt, link, 0, 15, 50)?;
    asks(rt, link, 5, 0, 50)?;
    does_not_ask(rt, link, "no option", mixed(OPTION_TYPE, 0), 3)
}

// Grants fall out of the row as it moves on. A tick before the stored one is refused, and so is an IP TTL of 1.
fn freeing(rt: &impl Print, link: &mut Link<4>) -> io::Result<()> {
    asks(rt, link, 15, 15, 12)?;
    asks(rt, link, 7, 4, 12)?;
    asks(rt, link, 5, 15, 13)?;
    asks(rt, link, 1, 15, 12)?;
    does_not_ask(rt, link, "ttl 1", mixed(TTL, 1), 14)?;
    asks(rt, link, 15, 15, 13)
}

// All grants have fallen out of the row.
fn freed(rt: &impl Print, link: &mut Link<4>) -> io::Result<()> {
    asks(rt, link, 15, 15, 100)?;
    asks(rt, link, 2, 15, 101)?;
    does_not_ask(rt, link, "option length 0", mixed(OPTION_LENGTH, 0), 104)?;
    asks(rt, link, 2, 15, 104)
}

fn shared_ledger(rt: &impl Print) -> io::Result<()> {
    let mut link = Link::new([0; 4], ALLOWANCE);
    filling(rt, &mut link)?;
    full(rt, &mut link)?;
    freeing(rt, &mut link)?;
    freed(rt, &mut link)
}

fn main(rt: HostRuntime) -> io::Result<()> {
    document_01(&rt)?;
    in_turn(&rt)?;
    ttls(&rt)?;
    ceilings(&rt)?;
    end_rates(&rt)?;
    no_requests(&rt)?;
    qs_ttls(&rt)?;
    long_header(&rt)?;
    two_requests(&rt)?;
    faults(&rt)?;
    two_faults(&rt)?;
    options_before_ttl(&rt)?;
    out_of_range(&rt)?;
    rows(&rt)?;
    links_out_of_range(&rt)?;
    over_allowance(&rt)?;
    tick_before(&rt)?;
    shared_ledger(&rt)
}
