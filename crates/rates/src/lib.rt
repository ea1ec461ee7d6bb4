// The fifteen steps of speed: the rate of a code, a code from bits a second, rounded down as a
// router does and up as a sender does, and the Quick-Start window that a code allows.
#![tactic(auto)]

ghost use Rattle.std.specs.Prelude.{◌≡◌, ◌^◌, ◌≤◌, min};
ghost use Rattle.wire_rules.specs.Rates.Steps.{top_code, rate_reply, rounded_down, rounded_up_reply};
ghost use Rattle.wire_rules.specs.Rates.Window.{transport_in_range, segments_reply, bytes_reply};
ghost use Rattle.refusals.specs.Replies.{told};

use refusals::{Refusal, in_range};
use wire_rules::Transport;

// The highest code. A code is a number and no type of its own: codes come from packets, records and callers as numbers, of
// which some are out of range, and each call tests them (7).
pub const TOP_CODE: u32 = 15;

// The longest round trip, in microseconds.
pub const LONGEST_RTT: u64 = 60_000_000;
// The most data of a segment, and the least and the most of its headers, in bytes.
pub const LARGEST_SEGMENT: u64 = 65_535;

pub const LEAST_HEADERS: u64 = 20;

pub const MOST_HEADERS: u64 = 120;

// The rate of code 0, if it were a step: code N has this times 2^N bits a second.
const BASE_RATE: u64 = 40_000;
// The same in bytes a second.
const BASE_BYTES: u64 = 5_000;
// Microseconds in a second.
const MICROSECONDS: u64 = 1_000_000;

// 2 to the code.
fn two_to(code: u32) -> u64
    requires { code ≤ top_code }
    ensures { result ≡ 2 ^ code }
{
    1u64 << code
}

// The bits a second of a code from 0 to 15. Code 0 means nothing: 0 bits a second.
#[tactic(auto, using(wire_rules::proofs::Rates::StepLaws::power_small), unfolding(wire_rules::specs::Rates::Steps::rate_of))]
pub fn rate_of(code: u32) -> Result<u64, Refusal>
    ensures { told result ≡ rate_reply code }
{
    if code > TOP_CODE {
        return Err(Refusal::OutOfRange);
    }
    if code == 0 {
        return Ok(0);
    }
    Ok(BASE_RATE * two_to(code))
}

// The greatest code whose rate is at most `bits`. The highest set bit of bits / 40,000 is the code,
// as long as it is not above the top.
#[tactic(auto, using(crate::proofs::StepLaws::down_none, crate::proofs::StepLaws::down_by_zeros))]
pub fn round_down(bits: u64) -> u32
    ensures { result ≡ rounded_down bits }
{
    let steps = bits / BASE_RATE;
    if steps == 0 {
        return 0;
    }
    let highest = 63 - u64::leading_zeros(steps);
    highest.min(TOP_CODE)
}

// The least code whose rate is at least `wish`, and the highest code where no code has such a
// rate: one more than the greatest code whose rate is below the wish.
#[tactic(auto, using(wire_rules::proofs::Rates::StepLaws::down_rule, crate::proofs::StepLaws::up_answer))]
pub fn round_up(wish: u64) -> Result<u32, Refusal>
    ensures { told result ≡ rounded_up_reply wish }
{
    if wish == 0 {
        return Err(Refusal::OutOfRange);
    }
    let below = round_down(wish - 1);
    Ok((below + 1).min(TOP_CODE))
}

// The lesser of two codes, as a rate and a ceiling: std's `min`, under the name that the edit `greater_for_lesser` holds.
pub fn lesser(a: u32, b: u32) -> u32
    ensures { result ≡ min a b }
{
    a.min(b)
}

// Whether round trip, segment size and the headers' length are in their ranges.
#[tactic(auto, unfolding(wire_rules::specs::Rates::Window::transport_in_range))]
pub fn transport_in_range(transport: Transport) -> bool
    ensures { result ≡ transport_in_range transport.rtt transport.mss transport.headers }
{
    in_range(1, transport.rtt, LONGEST_RTT)
        && in_range(1, transport.mss, LARGEST_SEGMENT)
        && in_range(LEAST_HEADERS, transport.headers, MOST_HEADERS)
}

// The Quick-Start window of a code 1 to 15 in segments: what the code's rate sends in a round trip, in whole segments
// that carry their headers besides.
#[tactic(auto, using(common::proofs::Choice::within_high, wire_rules::proofs::Rates::StepLaws::power_small, wire_rules::proofs::Rates::WindowLaws::transport_facts, crate::proofs::WindowLaws::sent_fits), unfolding(wire_rules::specs::Rates::Window::window_segments))]
pub fn window_segments(code: u32, transport: Transport) -> Result<u64, Refusal>
    ensures { told result ≡ segments_reply code transport.rtt transport.mss transport.headers }
{
    if !in_range(1, code as u64, TOP_CODE as u64) || !transport_in_range(transport) {
        return Err(Refusal::OutOfRange);
    }
    let sent = BASE_BYTES * two_to(code) * transport.rtt;
    Ok(sent / (MICROSECONDS * (transport.mss + transport.headers)))
}

// The same window in bytes: its segments times the segment size.
#[tactic(auto, using(crate::proofs::WindowLaws::bytes_answered, crate::proofs::WindowLaws::bytes_refused))]
pub fn window_bytes(code: u32, transport: Transport) -> Result<u64, Refusal>
    ensures { told result ≡ bytes_reply code transport.rtt transport.mss transport.headers }
{
    let segments = window_segments(code, transport)?;
    Ok(segments * transport.mss)
}
