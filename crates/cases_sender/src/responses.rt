// Responses, and what ends a request or the quick state: document 01's figures, every refusal, both sides of every limit.
ghost use Rattle.std.specs.Prelude.{◌<◌};

use crate::calls::{
    FIELDS, GOOD, HEADERS, MOST, NEITHER, ONES, RELAY, SEGMENT, TRANSPORT, WISH, acknowledged,
    answer, ask, ask_at, asked, echo, fresh, give_up, idle, loss, quick, respond,
};
use sender_rules::{Connection, Wish};
use std::io;
use wire_rules::Transport;

// The good response and a byte more.
const LONG: [u8; 9] = *b"\x1b\x08\x08\xc0\x92\x49\x24\x90\x00";

// The bytes of a response.
fn response(code: u32, ttl_diff: u8, nonce: u32) -> [u8; 8] {
    let [a, b, c, d] = (nonce << 2).to_be_bytes();
    [27, 8, (code % 16) as u8, ttl_diff, a, b, c, d]
}

// The good response with other bytes at some places.
fn good_with(changes: &[(usize, u8)]) -> [u8; 8] {
    let mut response = GOOD;
    for (at, byte) in changes {
        if let Some(place) = response.get_mut(*at) {
            *place = *byte;
        }
    }
    response
}

// Each response on its own.
fn answer_each(rt: &impl Print, c: Connection, responses: &[[u8; 8]]) -> io::Result<()> {
    for response in responses {
        answer(rt, c, response)?;
    }
    Ok(())
}

// The window of a code that was asked for and answered.
fn window_of(rt: &impl Print, code: u32, transport: Transport) -> io::Result<()> {
    let rtt = transport.rtt;
    let c = ask(rt, fresh(rt, 1, 0)?, Wish { code, rtt, ..WISH })?;
    respond(rt, c, &response(code, 192, FIELDS), transport)?;
    Ok(())
}

fn windows(rt: &impl Print) -> io::Result<()> {
    println!(rt; "windows of accepted responses:")?;
    for rtt in [600_000, 599_999, 599_998, 600_001] {
        window_of(rt, 8, Transport { rtt, ..TRANSPORT })?;
    }
    let rtt = 100_000;
    for code in 1..=15 {
        window_of(rt, code, Transport { rtt, ..TRANSPORT })?;
    }
    for (code, rtt, mss, headers) in [
        (1, 1, 1, 20),
        (1, 2_099, 1, 20),
        (1, 2_100, 1, 20),
        (1, 4_200, 1, 20),
        (15, 60_000_000, 1, 20),
        (15, 60_000_000, 65_535, 120),
        (15, 60_000_000, 65_535, 20),
    ] {
        window_of(rt, code, Transport { rtt, mss, headers })?;
    }
    Ok(())
}

// The window of code 8 on the relay beside a present one.
fn windows_compared(rt: &impl Print) -> io::Result<()> {
    println!(rt; "a window that is not above the present one:")?;
    for window in [747_519, 747_520, 747_521, MOST] {
        let c = ask_at(rt, fresh(rt, window, 0)?, 0)?;
        answer(rt, c, &GOOD)?;
    }
    Ok(())
}

// Responses to document 01's request.
fn document_01(rt: &impl Print) -> io::Result<()> {
    println!(rt; "nonces and TTL Diff of document 01:")?;
    let wish = Wish {
        code: 5,
        nonce: 0,
        ..WISH
    };
    for (code, ttl_diff, nonce) in [
        (3, 192, 960),
        (5, 192, 960),
        (4, 192, 960),
        (5, 192, 0),
        (5, 191, 0),
        (5, 193, 0),
    ] {
        let c = ask(rt, idle(rt)?, wish)?;
        answer(rt, c, &response(code, ttl_diff, nonce))?;
    }
    Ok(())
}

// Asking for 15 with a nonce whose every bit is set.
fn ask_with_ones(rt: &impl Print) -> io::Result<Connection> {
    let wish = Wish {
        code: 15,
        nonce: ONES,
        ..WISH
    };
    ask(rt, fresh(rt, 1, 0)?, wish)
}

// Responses to that request, with the rate whose own field this is, from 0 on. Without the field's lower bit, without its
// upper one, or without the lowest bit of all, the nonce is wrong; fields above it are not looked at.
fn field_of(rt: &impl Print, field: u32) -> io::Result<()>
    requires { field < 14 }
{
    let low = 1u32 << (2 * field);
    let kept = ONES >> (28 - 2 * field);
    let c = ask_with_ones(rt)?;
    for nonce in [
        ONES ^ (low << 2),
        ONES ^ low,
        ONES ^ (low << 1),
        kept,
        kept ^ 1,
    ] {
        answer(rt, c, &response(field + 1, 192, nonce))?;
    }
    Ok(())
}

fn highest_field(rt: &impl Print) -> io::Result<()> {
    let c = ask_with_ones(rt)?;
    for missing in [0, 268_435_456, 536_870_912, 1] {
        answer(rt, c, &response(15, 192, ONES ^ missing))?;
    }
    Ok(())
}

fn every_field(rt: &impl Print) -> io::Result<()> {
    println!(rt; "nonces field by field:")?;
    for field in 0..14 {
        field_of(rt, field)?;
    }
    highest_field(rt)
}

fn responses_out_of_range(rt: &impl Print) -> io::Result<()> {
    println!(rt; "a response with a number out of range:")?;
    let c = asked(rt)?;
    for (rtt, mss, headers) in [
        (0, SEGMENT, HEADERS),
        (60_000_001, SEGMENT, HEADERS),
        (u64::MAX, SEGMENT, HEADERS),
        (RELAY, 0, HEADERS),
        (RELAY, 65_536, HEADERS),
        (RELAY, u64::MAX, HEADERS),
        (RELAY, SEGMENT, 19),
        (RELAY, SEGMENT, 121),
        (RELAY, SEGMENT, u64::MAX),
    ] {
        respond(rt, c, &GOOD, Transport { rtt, mss, headers })?;
    }
    Ok(())
}

fn responses_of_other_lengths(rt: &impl Print) -> io::Result<()> {
    println!(rt; "a response of another length:")?;
    let c = asked(rt)?;
    answer(rt, c, &LONG[..0])?;
    answer(rt, c, &LONG[..7])?;
    answer(rt, c, &LONG)?;
    Ok(())
}

// In a state in which no request is open. The last numbers are out of range.
fn not_asked(rt: &impl Print, c: Connection, transport: Transport) -> io::Result<()> {
    answer(rt, c, &GOOD)?;
    answer(rt, c, &NEITHER)?;
    answer(rt, c, &LONG[..7])?;
    answer(rt, c, &LONG)?;
    respond(rt, c, &GOOD, transport)?;
    Ok(())
}

fn responses_in_other_states(rt: &impl Print) -> io::Result<()> {
    println!(rt; "a response while idle and while quick:")?;
    let no_time = Transport {
        rtt: 0,
        ..TRANSPORT
    };
    not_asked(rt, idle(rt)?, no_time)?;
    let long_headers = Transport {
        headers: 121,
        ..TRANSPORT
    };
    not_asked(rt, quick(rt)?, long_headers)
}

fn responses_of_other_kinds(rt: &impl Print) -> io::Result<()> {
    println!(rt; "no response:")?;
    let responses = [
        good_with(&[(0, 26)]),
        good_with(&[(0, 28)]),
        good_with(&[(0, 25)]),
        good_with(&[(1, 7)]),
        good_with(&[(1, 9)]),
        good_with(&[(0, 25), (2, 0)]),
        good_with(&[(1, 0), (3, 0)]),
        GOOD,
    ];
    answer_each(rt, asked(rt)?, &responses)
}

fn wrong_rates(rt: &impl Print) -> io::Result<()> {
    println!(rt; "wrong rates:")?;
    let responses = [
        good_with(&[(2, 0)]),
        good_with(&[(2, 9)]),
        good_with(&[(2, 15)]),
        good_with(&[(2, 0xf0)]),
        good_with(&[(2, 9), (3, 191)]),
        good_with(&[(2, 0), (7, 0)]),
    ];
    answer_each(rt, asked(rt)?, &responses)
}

fn wrong_ttl_diffs(rt: &impl Print) -> io::Result<()> {
    println!(rt; "wrong TTL Diffs:")?;
    let responses = [
        good_with(&[(3, 191)]),
        good_with(&[(3, 193)]),
        good_with(&[(3, 64)]),
        good_with(&[(3, 0)]),
        good_with(&[(3, 191), (7, 0)]),
    ];
    answer_each(rt, asked(rt)?, &responses)
}

// The last request's time stays after a refusal, and the request is open no longer.
fn wrong_nonces(rt: &impl Print) -> io::Result<()> {
    println!(rt; "wrong nonces:")?;
    let c = asked(rt)?;
    for nonce in [0, FIELDS + 1, FIELDS - 1] {
        answer(rt, c, &response(8, 192, nonce))?;
    }
    let left = answer(rt, c, &response(8, 192, FIELDS - 32_768))?;
    ask_at(rt, left, 1_599_999)?;
    ask_at(rt, left, 1_600_000)?;
    answer(rt, left, &GOOD)?;
    Ok(())
}

fn lower_rates(rt: &impl Print) -> io::Result<()> {
    println!(rt; "lower rates, other fields and reserved bits:")?;
    let responses = [
        good_with(&[(2, 7)]),
        good_with(&[(2, 1)]),
        response(7, 192, ONES / 16_384 * 16_384 + FIELDS % 16_384),
        response(8, 192, FIELDS % 65_536),
        good_with(&[(2, 0xf8)]),
        good_with(&[(7, 0x93)]),
        good_with(&[(2, 0x96), (7, 0x92)]),
    ];
    answer_each(rt, asked(rt)?, &responses)
}

fn acknowledgements(rt: &impl Print) -> io::Result<()> {
    println!(rt; "first acknowledgements:")?;
    let q = quick(rt)?;
    for flight in [
        0,
        14_599,
        14_600,
        14_601,
        747_519,
        747_520,
        747_521,
        MOST,
        MOST + 1,
        u64::MAX,
    ] {
        acknowledged(rt, q, flight)?;
    }
    Ok(())
}

// In a state that is not quick.
fn not_quick(rt: &impl Print, c: Connection) -> io::Result<()> {
    acknowledged(rt, c, 14_600)?;
    acknowledged(rt, c, MOST + 1)?;
    loss(rt, c)?;
    give_up(rt, c)?;
    Ok(())
}

fn other_states(rt: &impl Print) -> io::Result<()> {
    println!(rt; "calls in other states:")?;
    not_quick(rt, idle(rt)?)?;
    not_quick(rt, asked(rt)?)?;
    let q = quick(rt)?;
    loss(rt, q)?;
    give_up(rt, q)?;
    Ok(())
}

// Echoes until the window is below the one before.
fn echoed_often(rt: &impl Print, c: Connection) -> io::Result<Connection> {
    let mut q = c;
    for (acknowledgement, highest) in [
        (1_001, 2_000),
        (2_001, 3_000),
        (3_001, 4_000),
        (4_001, 5_000),
        (5_001, 6_000),
    ] {
        q = echo(rt, q, acknowledgement, highest, SEGMENT)?;
    }
    Ok(q)
}

fn lowered_while_quick(rt: &impl Print) -> io::Result<()> {
    println!(rt; "a window lowered while quick:")?;
    let q = echo(rt, quick(rt)?, 1, 1_000, SEGMENT)?;
    acknowledged(rt, q, 400_000)?;
    loss(rt, q)?;
    let low = echoed_often(rt, q)?;
    acknowledged(rt, low, 400_000)?;
    acknowledged(rt, low, 0)?;
    loss(rt, low)?;
    Ok(())
}

pub fn run(rt: &impl Print) -> io::Result<()> {
    windows(rt)?;
    windows_compared(rt)?;
    document_01(rt)?;
    every_field(rt)?;
    responses_out_of_range(rt)?;
    responses_of_other_lengths(rt)?;
    responses_in_other_states(rt)?;
    responses_of_other_kinds(rt)?;
    wrong_rates(rt)?;
    wrong_ttl_diffs(rt)?;
    wrong_nonces(rt)?;
    lower_rates(rt)?;
    acknowledgements(rt)?;
    other_states(rt)?;
    lowered_while_quick(rt)
}
