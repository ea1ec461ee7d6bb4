// Runs packets through the header's check, the reading of the IP TTL, the walk of the options, forwarding
// and ECN marking, and prints what they answer. The first line for a packet has its name and its bytes; then comes a line for
// each call, with the name, the call, and the answer, the bytes afterwards or the refusal.
#![tactic(auto)]

use ipv4::ecn;
use printing::{Bytes, Outcome, Refused};
use refusals::Refusal;
use std::fmt::Display;
use std::{fmt, io};
use wire_rules::Marking;

// The packet that document 01 works out.
const DOCUMENT_01: [u8; 28] =
    *b"\x47\x00\x00\x1c\x00\x00\x00\x00\x40\x06\x46\x52\x0a\x00\x00\x01\x0a\x00\x00\x02\x19\x08\x05\x80\x00\x00\x00\x00";

// The same without its option.
const PLAIN: [u8; 20] =
    *b"\x45\x00\x00\x14\x00\x00\x00\x00\x40\x06\x66\xe2\x0a\x00\x00\x01\x0a\x00\x00\x02";

// Its option.
const REQUEST: [u8; 8] = *b"\x19\x08\x05\x80\x00\x00\x00\x00";

// A header whose words sum to FFFF, its checksum not counted, so that the checksum to write is 0000.
const ZERO_CHECKSUM: [u8; 20] =
    *b"\x45\x03\x00\x14\xf7\x8d\x00\x00\x40\x06\x00\x00\xc0\xa8\x01\x01\xc0\xa8\x01\x02";

// The first bytes of a slice, or all of it where it has no more.
fn first(s: &[u8], n: usize) -> &[u8] {
    &s[..n.min(s.len())]
}

// A packet's bytes. Of a long one only the first 60, which hold any header.
#[derive(Drop)]
struct Packet<'a>(&'a [u8]);

impl Display for Packet<'_> {
    fn fmt<W: fmt::Write>(&self, f: &mut fmt::Formatter<W>) -> fmt::Result {
        if self.0.len() > 60 {
            write!(f, "{} ..", Bytes(first(self.0, 60)))
        } else {
            write!(f, "{}", Bytes(self.0))
        }
    }
}

// The place of an option, or none.
#[derive(Drop)]
struct Place(Option<usize>);

impl Display for Place {
    fn fmt<W: fmt::Write>(&self, f: &mut fmt::Formatter<W>) -> fmt::Result {
        match self.0 {
            Some(offset) => write!(f, "{offset}"),
            None => write!(f, "none"),
        }
    }
}

fn show(rt: &impl Print, name: &str, packet: &[u8]) -> io::Result<()> {
    println!(rt; "{name}: {} bytes{}", packet.len(), Packet(packet))
}

fn check(rt: &impl Print, name: &str, packet: &[u8]) -> io::Result<()> {
    println!(rt; "{name}: header {}", Outcome(ipv4::check_header(packet)))
}

fn ttl(rt: &impl Print, name: &str, packet: &[u8]) -> io::Result<()> {
    println!(rt; "{name}: ttl {}", Outcome(ipv4::ip_ttl(packet)))
}

fn locate(rt: &impl Print, name: &str, packet: &[u8]) -> io::Result<()> {
    println!(rt;
        "{name}: place {}",
        Outcome(ipv4::locate(packet).map(Place))
    )
}

// What a call answered that passes a packet on, and the bytes after it.
fn passed(
    rt: &impl Print,
    name: &str,
    answer: Result<(), Refusal>,
    packet: &[u8],
) -> io::Result<()> {
    match answer {
        Ok(()) => println!(rt; "{}", Packet(packet)),
        Err(why) => println!(rt; " {}\n{name}: unchanged{}", Refused(why), Packet(packet)),
    }
}

fn forward(rt: &impl Print, name: &str, packet: &mut [u8]) -> io::Result<()> {
    print!(rt; "{name}: forward")?;
    passed(rt, name, ipv4::forward(packet), packet)
}

fn pass_on(rt: &impl Print, name: &str, packet: &mut [u8]) -> io::Result<()> {
    print!(rt; "{name}: pass on")?;
    passed(rt, name, ipv4::pass_on(packet), packet)
}

fn mark(rt: &impl Print, name: &str, packet: &mut [u8]) -> io::Result<()> {
    print!(rt; "{name}: mark")?;
    match ecn::mark(packet) {
        Ok(Marking::Marked) => println!(rt; "{}", Packet(packet)),
        Ok(Marking::Dropped) => println!(rt; " drop\n{name}: unchanged{}", Packet(packet)),
        Err(why) => println!(rt; " {}\n{name}: unchanged{}", Refused(why), Packet(packet)),
    }
}

// The calls that change nothing.
fn look(rt: &impl Print, name: &str, packet: &[u8]) -> io::Result<()> {
    show(rt, name, packet)?;
    check(rt, name, packet)?;
    ttl(rt, name, packet)?;
    locate(rt, name, packet)
}

// Copies a packet to the front of a room, and hands back that part of the room.
fn copied<'a>(packet: &[u8], room: &'a mut [u8; 64]) -> &'a mut [u8] {
    let n = packet.len().min(64);
    room[..n].copy_from_slice(&packet[..n]);
    &mut room[..n]
}

// All calls, each on the packet as it came. A packet has at most 64 bytes here.
fn run(rt: &impl Print, name: &str, packet: &[u8]) -> io::Result<()> {
    look(rt, name, packet)?;
    let mut room = [0u8; 64];
    forward(rt, name, copied(packet, &mut room))?;
    pass_on(rt, name, copied(packet, &mut room))?;
    mark(rt, name, copied(packet, &mut room))
}

// All calls, one after the other on the same bytes.
fn run_in_place(rt: &impl Print, name: &str, packet: &mut [u8]) -> io::Result<()> {
    look(rt, name, packet)?;
    forward(rt, name, packet)?;
    pass_on(rt, name, packet)?;
    mark(rt, name, packet)
}

// The packet with other bytes at these places.
fn with<const N: usize>(mut packet: [u8; N], bytes: &[(usize, u8)]) -> [u8; N] {
    for (at, byte) in bytes {
        if *at < N {
            packet[*at] = *byte;
        }
    }
    packet
}

// All calls on a packet, each time with other bytes besides.
fn run_each<const N: usize>(
    rt: &impl Print,
    mut packet: [u8; N],
    cases: &[(&str, &[(usize, u8)])],
) -> io::Result<()> {
    for (name, bytes) in cases {
        packet = with(packet, bytes);
        run(rt, name, &packet)?;
    }
    Ok(())
}

// The plain header with ECT set and these options, at most 40 bytes; its checksum is handed in.
fn with_options<'a>(room: &'a mut [u8; 60], checksum: u16, options: &[u8]) -> &'a [u8] {
    let n = options.len().min(40);
    room[..20].copy_from_slice(&PLAIN);
    room[20..20 + n].copy_from_slice(&options[..n]);
    room[0] = 0x45 + (n / 4) as u8;
    room[1] = 2;
    room[3] = 20 + n as u8;
    room[10..12].copy_from_slice(&checksum.to_be_bytes());
    &room[..20 + n]
}

// All calls on a packet with these options.
fn run_with(rt: &impl Print, name: &str, checksum: u16, options: &[u8]) -> io::Result<()> {
    let mut room = [0u8; 60];
    run(rt, name, with_options(&mut room, checksum, options))
}

// Where the option stands in packets with these options.
fn locate_each(rt: &impl Print, cases: &[(&str, u16, &[u8])]) -> io::Result<()> {
    for (name, checksum, options) in cases {
        let mut room = [0u8; 60];
        let packet = with_options(&mut room, *checksum, options);
        show(rt, name, packet)?;
        locate(rt, name, packet)?;
    }
    Ok(())
}

// An options area by itself.
fn find(rt: &impl Print, name: &str, area: &[u8]) -> io::Result<()> {
    show(rt, name, area)?;
    println!(rt; "{name}: walk {}", Outcome(walk::find(area).map(Place)))
}

fn ecn_bits(rt: &impl Print) -> io::Result<()> {
    run_each(
        rt,
        DOCUMENT_01,
        &[
            ("document 01", &[]),
            ("ect", &[(1, 0x02), (11, 0x50)]),
            ("ect and ce", &[(1, 0x03), (11, 0x4f)]),
            ("ce alone", &[(1, 0x01), (11, 0x51)]),
            ("every bit but ce", &[(1, 0xfe), (10, 0x45), (11, 0x54)]),
            ("every bit but ect", &[(1, 0xfd), (11, 0x55)]),
        ],
    )
}

fn in_turn(rt: &impl Print) -> io::Result<()> {
    let name = "in turn";
    let mut p = with(DOCUMENT_01, &[(1, 2), (8, 3), (10, 0x83), (11, 0x50)]);
    show(rt, name, &p)?;
    mark(rt, name, &mut p)?;
    mark(rt, name, &mut p)?;
    forward(rt, name, &mut p)?;
    forward(rt, name, &mut p)?;
    forward(rt, name, &mut p)?;
    mark(rt, name, &mut p)?;
    check(rt, name, &p)?;
    locate(rt, name, &p)
}

fn options_areas(rt: &impl Print) -> io::Result<()> {
    locate_each(
        rt,
        &[
            ("no options", 0x66e0, b""),
            ("no-operations", 0x63da, b"\x01\x01\x01\x01"),
            ("end of list", 0x65dc, b"\x00\x00\x00\x00"),
            ("two of length 2", 0xddd7, b"\x44\x02\x44\x02"),
            ("length 4 of 4", 0x1cd8, b"\x44\x04\x05\x00"),
            ("report", 0xc6cf, b"\x19\x08\x85\x00\x00\x00\x00\x00"),
            (
                "every bit of the fields",
                0x4bd0,
                b"\x19\x08\xff\xff\xff\xff\xff\xff",
            ),
            (
                "type with copied flag",
                0xc64f,
                b"\x99\x08\x05\x80\x00\x00\x00\x00",
            ),
            ("type 27", 0x4450, b"\x1b\x08\x05\x80\x00\x00\x00\x00"),
        ],
    )
}

fn around_the_option(rt: &impl Print) -> io::Result<()> {
    locate_each(
        rt,
        &[
            (
                "after a no-operation",
                0xdab5,
                b"\x01\x19\x08\x05\x80\x00\x00\x00\x00\x00\x00\x00",
            ),
            (
                "after three no-operations",
                0xd9b4,
                b"\x01\x01\x01\x19\x08\x05\x80\x00\x00\x00\x00\x00",
            ),
            (
                "after router alert",
                0xb147,
                b"\x94\x04\x00\x00\x19\x08\x05\x80\x00\x00\x00\x00",
            ),
            (
                "before router alert",
                0xb147,
                b"\x19\x08\x05\x80\x00\x00\x00\x00\x94\x04\x00\x00",
            ),
            (
                "after timestamp",
                0xfb3f,
                b"\x44\x08\x05\x00\x00\x00\x00\x00\x19\x08\x05\x80\x00\x00\x00\x00",
            ),
            (
                "after record route",
                0xcea2,
                b"\x07\x0b\x04\x00\x00\x00\x00\x00\x00\x00\x00\x19\x08\x05\x80\x00\x00\x00\x00\x00",
            ),
            (
                "between two options",
                0xa438,
                b"\x94\x04\x00\x00\x19\x08\x05\x80\x00\x00\x00\x00\x07\x07\x04\x00\x00\x00\x00\x00",
            ),
        ],
    )
}

// The option's bytes where they are no option, and bytes that the walk does not reach.
fn not_looked_at(rt: &impl Print) -> io::Result<()> {
    locate_each(
        rt,
        &[
            (
                "behind the end",
                0xdbb5,
                b"\x00\x19\x08\x05\x80\x00\x00\x00\x00\x00\x00\x00",
            ),
            (
                "behind a later end",
                0x434b,
                b"\x01\x01\x01\x00\x19\x08\x05\x80\x00\x00\x00\x00",
            ),
            (
                "behind option and end",
                0x46ad,
                b"\x94\x04\x00\x00\x00\x19\x08\x05\x80\x00\x00\x00\x00\x00\x00\x00",
            ),
            (
                "in record route",
                0xd0aa,
                b"\x07\x0b\x04\x19\x08\x05\x80\x00\x00\x00\x00\x00",
            ),
            (
                "in an unknown option",
                0x2641,
                b"\x1e\x0a\x19\x08\x05\x80\x00\x00\x00\x00\x01\x01",
            ),
            (
                "in record route and after it",
                0x4684,
                b"\x07\x0b\x04\x19\x08\x05\x80\x00\x00\x00\x00\x19\x08\x05\x80\x00\x00\x00\x00\x00",
            ),
            (
                "bad option behind the end",
                0x3e2e,
                b"\x19\x08\x05\x80\x00\x00\x00\x00\x00\x19\x07\x05",
            ),
            (
                "second behind the end",
                0x24bc,
                b"\x19\x08\x05\x80\x00\x00\x00\x00\x00\x00\x00\x00\x19\x08\x05\x80\x00\x00\x00\x00",
            ),
        ],
    )
}

fn option_lengths(rt: &impl Print) -> io::Result<()> {
    locate_each(
        rt,
        &[
            ("length 0", 0x21dc, b"\x44\x00\x00\x00"),
            ("length 1", 0x21db, b"\x44\x01\x00\x00"),
            ("length missing", 0x6397, b"\x01\x01\x01\x44"),
            ("length 5 of 4", 0x1cd7, b"\x44\x05\x05\x00"),
            ("length 255 of 4", 0x1bdd, b"\x44\xff\x05\x00"),
            ("type 25 length 0", 0x4cdc, b"\x19\x00\x00\x00"),
            ("type 25 length 1", 0x4cdb, b"\x19\x01\x00\x00"),
            ("type 25 length missing", 0x63c2, b"\x01\x01\x01\x19"),
            ("type 25 length 8 of 4", 0x4754, b"\x19\x08\x05\x80"),
            (
                "type 25 length 9 of 8",
                0x464f,
                b"\x19\x09\x05\x80\x00\x00\x00\x00",
            ),
            (
                "length 0 then type 25 length 2",
                0x08da,
                b"\x44\x00\x19\x02",
            ),
            (
                "length 0 after it",
                0x014c,
                b"\x19\x08\x05\x80\x00\x00\x00\x00\x44\x00\x00\x00",
            ),
            (
                "type 25 length 8 of 4 after it",
                0x26c4,
                b"\x19\x08\x05\x80\x00\x00\x00\x00\x19\x08\x05\x80",
            ),
        ],
    )
}

fn quick_start_lengths(rt: &impl Print) -> io::Result<()> {
    locate_each(
        rt,
        &[
            ("type 25 length 2", 0x4bd9, b"\x19\x02\x01\x01"),
            (
                "type 25 length 7",
                0x4650,
                b"\x19\x07\x05\x80\x00\x00\x00\x01",
            ),
            (
                "type 25 length 9",
                0x4449,
                b"\x19\x09\x05\x80\x00\x00\x00\x00\x00\x01\x01\x01",
            ),
            (
                "type 25 length 2 then length 0",
                0x08da,
                b"\x19\x02\x44\x00",
            ),
            (
                "type 25 length 4 after it",
                0x2c48,
                b"\x19\x08\x05\x80\x00\x00\x00\x00\x19\x04\x00\x00",
            ),
            (
                "type 25 length 8 after it",
                0x25c0,
                b"\x19\x08\x05\x80\x00\x00\x00\x00\x19\x08\x05\x80\x00\x00\x00\x00",
            ),
        ],
    )
}

fn long_headers(rt: &impl Print) -> io::Result<()> {
    let mut last = [0u8; 40];
    last[..3].copy_from_slice(b"\x07\x1f\x04");
    last[31] = 0x01;
    last[32..].copy_from_slice(&REQUEST);
    run_with(rt, "60 bytes and the option last", 0x3310, &last)?;
    let mut between = [0u8; 40];
    between[..4].copy_from_slice(b"\x94\x04\x00\x00");
    between[4..16].copy_from_slice(b"\x44\x0c\x05\x00\x00\x00\x00\x00\xff\xff\xff\xff");
    between[16..24].copy_from_slice(&REQUEST);
    between[24..39].copy_from_slice(
        b"\x07\x0f\x04\xc0\xa8\x01\x01\xc0\xa8\x01\x02\xc0\xa8\x01\x03",
    );
    run_with(rt, "60 bytes and the option between", 0x55cb, &between)?;
    let none = with([0xff; 40], &[(0, 0x07), (1, 0x27), (2, 0x28), (39, 0x01)]);
    run_with(rt, "60 bytes and none", 0x2d90, &none)?;
    let fault = with([0x01; 40], &[(39, 0x19)]);
    run_with(rt, "60 bytes and a fault last", 0x488c, &fault)
}

fn slices(rt: &impl Print) -> io::Result<()> {
    run(rt, "no byte", &[])?;
    run(rt, "one byte", &PLAIN[..1])?;
    run(rt, "19 bytes", &PLAIN[..19])?;
    run(rt, "20 bytes", &PLAIN)
}

fn first_bytes(rt: &impl Print) -> io::Result<()> {
    run_each(
        rt,
        PLAIN,
        &[
            ("version 6", &[(0, 0x65), (10, 0x46)]),
            ("length field 4", &[(0, 0x44), (10, 0x71), (11, 0xe4)]),
            ("length field 0", &[(0, 0x40), (10, 0x6b), (11, 0xe2)]),
            (
                "header 24 of 20",
                &[(0, 0x46), (3, 24), (10, 0x65), (11, 0xde)],
            ),
            ("header 24 and total 20", &[(3, 20), (11, 0xe2)]),
        ],
    )
}

fn total_lengths(rt: &impl Print) -> io::Result<()> {
    run_each(
        rt,
        DOCUMENT_01,
        &[
            ("total 27 of 28", &[(3, 27), (11, 0x53)]),
            ("total 29 of 28", &[(3, 29), (11, 0x51)]),
            ("total 0", &[(3, 0), (11, 0x6e)]),
        ],
    )
}

fn wrong_checksums(rt: &impl Print) -> io::Result<()> {
    run_each(
        rt,
        DOCUMENT_01,
        &[
            ("checksum one bit off", &[(11, 0x53)]),
            ("option one bit off", &[(11, 0x52), (27, 0x01)]),
            ("no checksum", &[(27, 0x00), (10, 0x00), (11, 0x00)]),
        ],
    )
}

// Packets with several faults: each call names the first that it tests.
fn several_faults(rt: &impl Print) -> io::Result<()> {
    run(
        rt,
        "faults 1 and 2 and 6",
        &with(DOCUMENT_01, &[(0, 0x67), (8, 0)]),
    )?;
    run_each(
        rt,
        DOCUMENT_01,
        &[
            ("faults 1 and 3", &[(3, 27), (11, 0x5b), (21, 0)]),
            ("faults 2 and 3", &[(3, 28), (11, 0x52)]),
            ("faults 2 and 5", &[(21, 7)]),
            ("faults 2 and 6", &[(8, 1), (21, 8)]),
        ],
    )
}

// Faults that passing on or marking does not look for.
fn faults_not_tested(rt: &impl Print) -> io::Result<()> {
    run_each(
        rt,
        DOCUMENT_01,
        &[
            ("fault 3", &[(1, 2), (11, 0x58), (21, 0)]),
            ("fault 5", &[(11, 0x51), (21, 7)]),
            ("faults 3 and 6", &[(8, 1), (10, 0x85), (11, 0x58), (21, 0)]),
            ("faults 5 and 6", &[(11, 0x51), (21, 7)]),
        ],
    )
}

fn ttls(rt: &impl Print) -> io::Result<()> {
    run_each(
        rt,
        DOCUMENT_01,
        &[
            ("ttl 0", &[(1, 2), (8, 0), (10, 0x86), (11, 0x50)]),
            ("ttl 1", &[(8, 1), (10, 0x85)]),
            ("ttl 2", &[(8, 2), (10, 0x84)]),
            ("ttl 255", &[(8, 255), (10, 0x87), (11, 0x4f)]),
        ],
    )
}

// Bytes behind the header and behind the packet, which no call looks at.
fn data(rt: &impl Print) -> io::Result<()> {
    let p = with(DOCUMENT_01, &[(0, 0x45), (1, 2), (10, 0x66), (11, 0xd8)]);
    run(rt, "option in the data", &p)?;
    let q = with(p, &[(3, 21), (11, 0xdf), (20, 0xff)]);
    run(rt, "one byte of data", &q[..21])?;
    more_behind(rt)
}

// Four bytes of data, and four more.
fn more_behind(rt: &impl Print) -> io::Result<()> {
    let mut room = [0u8; 36];
    let (packet, behind) = room.split_at_mut(28);
    packet.copy_from_slice(&with(DOCUMENT_01, &[(1, 2), (3, 32), (11, 0x4c)]));
    behind.copy_from_slice(b"\x19\x07\x01\x02\xff\xfe\xfd\xfc");
    run(rt, "data and more behind", &room)
}

// Where 0000 is the checksum to write, FFFF passes the check as well; a call that writes writes 0000.
fn zero_checksums(rt: &impl Print) -> io::Result<()> {
    run_each(
        rt,
        ZERO_CHECKSUM,
        &[
            ("marked and checksum 0000", &[]),
            ("marked and checksum ffff", &[(10, 0xff), (11, 0xff)]),
            ("ect and checksum ffff", &[(1, 2), (5, 0x8e)]),
            ("ect and checksum feff", &[(8, 65), (10, 0xfe)]),
            (
                "ce alone and checksum ffff",
                &[(1, 1), (5, 0x8f), (8, 64), (10, 0xff)],
            ),
        ],
    )
}

fn long_slices(rt: &impl Print) -> io::Result<()> {
    let mut p = with(DOCUMENT_01, &[(1, 2), (11, 0x50)]);
    let mut long = [0u8; 70_000];
    long[..28].copy_from_slice(&p);
    run_in_place(rt, "long slice", &mut long)?;
    p = with(p, &[(2, 0xff), (3, 0xff), (11, 0x6c)]);
    let mut longest = [0u8; 65_535];
    longest[..28].copy_from_slice(&p);
    run_in_place(rt, "longest packet", &mut longest)?;
    let mut cut = [0u8; 65_534];
    cut[..28].copy_from_slice(&p);
    run_in_place(rt, "longest packet cut", &mut cut)
}

fn short_areas(rt: &impl Print) -> io::Result<()> {
    let cases: [(&str, &[u8]); 8] = [
        ("empty area", b""),
        ("area of an end", b"\x00"),
        ("area of a no-operation", b"\x01"),
        ("area of a type", b"\x19"),
        ("area of type and length", b"\x19\x08"),
        ("area of 7 bytes", b"\x19\x08\x05\x80\x00\x00\x00"),
        ("area of 8 bytes", b"\x19\x08\x05\x80\x00\x00\x00\x00"),
        ("area of 9 bytes", b"\x01\x19\x08\x05\x80\x00\x00\x00\x00"),
    ];
    for (name, area) in cases {
        find(rt, name, area)?;
    }
    Ok(())
}

fn long_areas(rt: &impl Print) -> io::Result<()> {
    let no_operations = with([0x01; 308], &[(300, 0x19), (301, 0x08)]);
    find(rt, "300 no-operations before", &no_operations)?;
    let long = with([0; 263], &[(0, 0x44), (1, 0xff), (255, 0x19), (256, 0x08)]);
    find(rt, "option of 255 before", &long)?;
    find(rt, "option of 255 alone", first(&long, 255))?;
    find(rt, "option of 255 cut short", first(&long, 254))
}

fn main(rt: HostRuntime) -> io::Result<()> {
    ecn_bits(&rt)?;
    in_turn(&rt)?;
    options_areas(&rt)?;
    around_the_option(&rt)?;
    not_looked_at(&rt)?;
    option_lengths(&rt)?;
    quick_start_lengths(&rt)?;
    long_headers(&rt)?;
    slices(&rt)?;
    first_bytes(&rt)?;
    total_lengths(&rt)?;
    wrong_checksums(&rt)?;
    several_faults(&rt)?;
    faults_not_tested(&rt)?;
    ttls(&rt)?;
    data(&rt)?;
    zero_checksums(&rt)?;
    long_slices(&rt)?;
    short_areas(&rt)?;
    long_areas(&rt)
}
