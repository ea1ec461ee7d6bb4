// Runs the lowest layers on the documents' figures and on both sides of every boundary, and prints
// what they answer, a line for each call: its name, its arguments, and its answer or refusal.
#![tactic(auto)]

use options::{request, response};
use printing::{Bytes, Outcome, Refused};
use refusals::Refusal;
use std::io;
use wire_rules::{Request, Response, Transport};

fn rate(rt: &impl Print, code: u32) -> io::Result<()> {
    println!(rt; "rate {code}: {}", Outcome(rates::rate_of(code)))
}

fn down(rt: &impl Print, bits: u64) -> io::Result<()> {
    println!(rt; "down {bits}: {}", rates::round_down(bits))
}

fn up(rt: &impl Print, wish: u64) -> io::Result<()> {
    println!(rt; "up {wish}: {}", Outcome(rates::round_up(wish)))
}

// Both roundings at a rate and at one bit a second to each side of it.
fn around(rt: &impl Print, bits: u64) -> io::Result<()> {
    let sides = [bits.saturating_sub(1), bits, bits.saturating_add(1)];
    for bits in sides {
        down(rt, bits)?;
    }
    for wish in sides {
        up(rt, wish)?;
    }
    Ok(())
}

// The window in segments and in bytes.
fn window(rt: &impl Print, code: u32, rtt: u64, mss: u64, headers: u64) -> io::Result<()> {
    print!(rt; "window {code} {rtt} {mss} {headers}: ")?;
    let transport = Transport { rtt, mss, headers };
    if let Ok(segments) = rates::window_segments(code, transport) {
        print!(rt; "{segments} ")?;
    }
    println!(rt; "{}", Outcome(rates::window_bytes(code, transport)))
}

// What a write answered, and the buffer after it.
fn written(rt: &impl Print, answer: Result<(), Refusal>, option: &[u8]) -> io::Result<()> {
    match answer {
        Ok(()) => println!(rt; ":{}", Bytes(option)),
        Err(why) => println!(rt; ": {}\nleft:{}", Refused(why), Bytes(option)),
    }
}

fn write_request(
    rt: &impl Print,
    option: &mut [u8],
    rate: u32,
    qs_ttl: u8,
    nonce: u32,
) -> io::Result<()> {
    print!(rt; "write request {rate} {qs_ttl} {nonce}")?;
    let fields = Request {
        rate,
        qs_ttl,
        nonce,
    };
    written(rt, request::write(option, fields), option)
}

fn rewrite_request(
    rt: &impl Print,
    option: &mut [u8],
    rate: u32,
    qs_ttl: u8,
    nonce: u32,
) -> io::Result<()> {
    print!(rt;
        "rewrite request{} as {rate} {qs_ttl} {nonce}",
        Bytes(option)
    )?;
    let fields = Request {
        rate,
        qs_ttl,
        nonce,
    };
    written(rt, request::rewrite(option, fields), option)
}

fn write_response(
    rt: &impl Print,
    option: &mut [u8],
    rate: u32,
    ttl_diff: u8,
    nonce: u32,
) -> io::Result<()> {
    print!(rt; "write response {rate} {ttl_diff} {nonce}")?;
    let fields = Response {
        rate,
        ttl_diff,
        nonce,
    };
    written(rt, response::write(option, fields), option)
}

fn read_request(rt: &impl Print, option: &[u8]) -> io::Result<()> {
    print!(rt; "read request{}: ", Bytes(option))?;
    match request::read(option) {
        Ok(read) => println!(rt; "{} {} {}", read.rate, read.qs_ttl, read.nonce),
        Err(why) => println!(rt; "{}", Refused(why)),
    }
}

fn read_response(rt: &impl Print, option: &[u8]) -> io::Result<()> {
    print!(rt; "read response{}: ", Bytes(option))?;
    match response::read(option) {
        Ok(read) => println!(rt; "{} {} {}", read.rate, read.ttl_diff, read.nonce),
        Err(why) => println!(rt; "{}", Refused(why)),
    }
}

fn every_rate(rt: &impl Print) -> io::Result<()> {
    for code in 0..=16 {
        rate(rt, code)?;
    }
    rate(rt, u32::MAX)
}

fn every_boundary(rt: &impl Print) -> io::Result<()> {
    for code in 1..=15 {
        if let Ok(bits) = rates::rate_of(code) {
            around(rt, bits)?;
        }
    }
    Ok(())
}

fn extremes(rt: &impl Print) -> io::Result<()> {
    for bits in [0, 39_999, 40_000, 2_000_000_000, u64::MAX] {
        down(rt, bits)?;
    }
    for wish in [0, 1, 2_000_000_000, u64::MAX] {
        up(rt, wish)?;
    }
    Ok(())
}

fn windows(rt: &impl Print) -> io::Result<()> {
    for (code, rtt, mss, headers) in [
        (8, 600_000, 1_460, 40),
        (8, 599_999, 1_460, 40),
        (1, 1, 65_535, 120),
        (15, 60_000_000, 1, 20),
        (15, 60_000_000, 65_535, 120),
        (0, 600_000, 1_460, 40),
        (16, 600_000, 1_460, 40),
        (8, 0, 1_460, 40),
        (8, 60_000_001, 1_460, 40),
        (8, 600_000, 0, 40),
        (8, 600_000, 65_536, 40),
        (8, 600_000, 1_460, 19),
        (8, 600_000, 1_460, 121),
        (8, u64::MAX, u64::MAX, u64::MAX),
    ] {
        window(rt, code, rtt, mss, headers)?;
    }
    Ok(())
}

fn requests(rt: &impl Print) -> io::Result<()> {
    let mut option = [0u8; 8];
    write_request(rt, &mut option, 5, 128, 0)?;
    read_request(rt, &option)?;
    rewrite_request(rt, &mut option, 3, 127, 960)?;
    read_request(rt, &option)?;
    write_request(rt, &mut option, 9, 17, 19_088_743)?;
    read_request(rt, &option)?;
    write_request(rt, &mut option, 16, 1, 2)?;
    write_request(rt, &mut option, 1, 2, 1_073_741_824)?;
    write_request(rt, &mut option, 15, 255, 1_073_741_823)?;
    rewrite_request(rt, &mut option, 16, 0, 0)?;
    rewrite_request(rt, &mut option, 0, 0, 1_073_741_824)?;
    rewrite_request(rt, &mut option, 0, 0, 0)
}

fn reserved_bits(rt: &impl Print) -> io::Result<()> {
    let mut option = [25, 8, 5, 128, 0, 0, 0, 3];
    read_request(rt, &option)?;
    rewrite_request(rt, &mut option, 3, 127, 960)
}

fn no_requests(rt: &impl Print) -> io::Result<()> {
    let mut report = [25, 8, 133, 0, 0, 0, 0, 0];
    read_request(rt, &report)?;
    rewrite_request(rt, &mut report, 3, 127, 960)?;
    read_request(rt, &[24, 8, 5, 128, 0, 0, 0, 0])?;
    read_request(rt, &[25, 7, 5, 128, 0, 0, 0, 0])?;
    read_request(rt, &[25, 8, 5, 128, 0, 0, 0])?;
    read_request(rt, &[25, 8, 5, 128, 0, 0, 0, 0, 0])?;
    let mut long = [1u8; 9];
    write_request(rt, &mut long, 5, 128, 0)?;
    rewrite_request(rt, &mut long, 5, 128, 0)
}

fn responses(rt: &impl Print) -> io::Result<()> {
    let mut option = [0u8; 8];
    write_response(rt, &mut option, 3, 192, 960)?;
    read_response(rt, &option)?;
    write_response(rt, &mut option, 16, 1, 2)?;
    write_response(rt, &mut option, 1, 2, 1_073_741_824)?;
    read_response(rt, &[27, 8, 243, 192, 0, 0, 15, 3])?;
    read_response(rt, &[25, 8, 3, 192, 0, 0, 15, 0])?;
    read_response(rt, &[27, 9, 3, 192, 0, 0, 15, 0])?;
    read_response(rt, &[27, 8, 3, 192, 0, 0, 15])?;
    let mut short = [1u8; 7];
    write_response(rt, &mut short, 3, 192, 960)
}

fn lowerings(rt: &impl Print) -> io::Result<()> {
    for (old, new, nonce, fresh) in [
        (5, 3, 0, 1_073_741_823),
        (3, 5, 0, 1_073_741_823),
        (15, 0, 0, 1_073_741_823),
        (15, 14, 0, 1_073_741_823),
        (1, 0, 0, 1_073_741_823),
        (5, 3, 1_073_741_823, 0),
        (16, 3, 0, 0),
        (5, 16, 0, 0),
        (5, 3, 1_073_741_824, 0),
        (5, 3, 0, 1_073_741_824),
    ] {
        let after = nonce::after_lowering(old, new, nonce, fresh);
        println!(rt;
            "nonce after {old} {new} {nonce} {fresh}: {}",
            Outcome(after)
        )?;
    }
    Ok(())
}

fn comparisons(rt: &impl Print) -> io::Result<()> {
    for (code, a, b) in [
        (3, 960, 0),
        (5, 960, 0),
        (4, 960, 0),
        (0, 960, 7),
        (15, 1_073_741_823, 1_073_741_823),
        (16, 0, 0),
        (3, 1_073_741_824, 0),
        (3, 0, 1_073_741_824),
    ] {
        let words = nonce::agree(code, a, b).map(|same| if same { "same" } else { "different" });
        println!(rt; "agree {code} {a} {b}: {}", Outcome(words))?;
    }
    Ok(())
}

fn main(rt: HostRuntime) -> io::Result<()> {
    every_rate(&rt)?;
    every_boundary(&rt)?;
    extremes(&rt)?;
    windows(&rt)?;
    requests(&rt)?;
    reserved_bits(&rt)?;
    no_requests(&rt)?;
    responses(&rt)?;
    lowerings(&rt)?;
    comparisons(&rt)
}
