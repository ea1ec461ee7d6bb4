// Functions on the sender's record of one connection (`sender_rules::Connection`). A record is made of numbers too: every
// call tests them, and refuses a record that is out of range with 7.
#![tactic(auto)]

ghost use Rattle.std.specs.Prelude.{◌≡◌, ◌≤◌, min, max, leb};
ghost use Rattle.std.specs.List.{list_all};
ghost use Rattle.refusals.specs.Replies.{told};
ghost use Rattle.sender_rules.specs.Congestion.Echoes.{halved};
ghost use Rattle.sender_rules.specs.Congestion.Phases.{is_early};
ghost use Rattle.sender_rules.specs.Connections.Records.{most_bytes, is_before, state_in_range, in_range, fresh_with, fresh_reply, with_state, with_last_request, with_mark, with_period};

use options::NONCE_LIMIT;
use rates::TOP_CODE;
use refusals::{Refusal, in_range};
use sender_rules::{Connection, Sample, State};

// The most bytes of a window, of ssthresh, of a flight and of a sample: 2^40.
// No type of its own: a record that is lent may have any number there, and each call tests it (7).
pub const MOST_BYTES: u64 = 1_099_511_627_776;

pub const MOST_SAMPLES: usize = 5;

// The lesser of two numbers of bytes, and below it the greater: std's, by the names that the edit `halving_may_raise` holds.
pub fn lesser(a: u64, b: u64) -> u64
    ensures { result ≡ min a b }
{
    a.min(b)
}

// The greater of two numbers of bytes.
pub fn greater(a: u64, b: u64) -> u64
    ensures { result ≡ max a b }
{
    a.max(b)
}

// Whether a time lies before a stored one; nothing lies before a time that is not stored.
#[tactic(auto, unfolding(sender_rules::specs::Connections::Records::is_before))]
pub fn is_before(time: u64, stored: Option<u64>) -> bool
    ensures { result ≡ is_before time stored }
{
    stored.is_some_and(|t| time < t)
}

// Whether the numbers of a state are in their ranges.
#[tactic(auto, unfolding(sender_rules::specs::Connections::Records::state_in_range))]
fn state_in_range(state: State) -> bool
    ensures { result ≡ state_in_range state }
{
    match state {
        State::Idle => true,
        State::Asked(request) => in_range(1, request.code as u64, TOP_CODE as u64)
            && request.nonce < NONCE_LIMIT,
        State::Quick(before) => in_range(1, before.window, MOST_BYTES),
    }
}

// Whether the bytes of all samples are in their range.
fn samples_in_range(samples: &[Sample]) -> bool
    ensures { result ≡ list_all (λ sample. leb sample.bytes most_bytes) samples.now }
{
    samples.iter().all(|sample| sample.bytes <= MOST_BYTES)
}

// Whether every number of a record is in its range. Of the samples' places only the first `count` are looked at.
#[tactic(auto, using(crate::proofs::SampleLaws::all_in_range), unfolding(sender_rules::specs::Connections::Records::in_range))]
pub fn is_in_range(connection: Connection) -> bool
    ensures { result ≡ in_range connection }
{
    in_range(1, connection.window, MOST_BYTES)
        && connection.ssthresh <= MOST_BYTES
        && state_in_range(connection.state)
        && connection.count <= MOST_SAMPLES
        && samples_in_range(&connection.samples[..connection.count])
}

// A fresh record: idle, with no last request, mark, sample or period. Its numbers are not tested.
pub fn fresh_record(window: u64, ssthresh: u64) -> Connection
    ensures { result ≡ fresh_with window ssthresh }
{
    Connection {
        state: State::Idle,
        window,
        ssthresh,
        last_request: None,
        mark: None,
        samples: [Sample { time: 0, bytes: 0 }; MOST_SAMPLES],
        count: 0,
        period: None,
    }
}

// What the making of a record answers, and the record of the numbers given, which stands beside a refusal too.
#[derive(Clone, Copy)]
pub struct Opened {
    pub answer: Result<(), Refusal>,
    pub connection: Connection,
}

// The fresh record of two numbers, and whether they are in their ranges. A record that is refused is out of range, so every
// call refuses it: whoever overlooks the refusal does not go on with another window than the one asked for.
#[tactic(auto, using(sender_rules::proofs::Connections::RecordLaws::fresh_ranges))]
pub fn fresh(window: u64, ssthresh: u64) -> Opened
    ensures answer { told result.answer ≡ fresh_reply window ssthresh }
    ensures record { result.connection ≡ fresh_with window ssthresh }
{
    let connection = fresh_record(window, ssthresh);
    let answer = if is_in_range(connection) {
        Ok(())
    } else {
        Err(Refusal::OutOfRange)
    };
    Opened { answer, connection }
}

// A record with another state, the rest as it was.
pub fn with_state(connection: Connection, state: State) -> Connection
    ensures { result ≡ with_state connection state }
{
    Connection {
        state,
        ..connection
    }
}

// A record with another time of the last request.
pub fn with_last_request(connection: Connection, last_request: Option<u64>) -> Connection
    ensures { result ≡ with_last_request connection last_request }
{
    Connection {
        last_request,
        ..connection
    }
}

// A record with another mark.
pub fn with_mark(connection: Connection, mark: Option<u32>) -> Connection
    ensures { result ≡ with_mark connection mark }
{
    Connection { mark, ..connection }
}

// A record with another start of the non-validated period, or with none.
pub fn with_period(connection: Connection, period: Option<u64>) -> Connection
    ensures { result ≡ with_period connection period }
{
    Connection {
        period,
        ..connection
    }
}

// ---- what several calls ask

// Half of the window or the least given, whichever is more, but not more than the window.
#[tactic(auto, unfolding(sender_rules::specs::Congestion::Echoes::halved))]
pub fn halved_down_to(window: u64, least: u64) -> u64
    ensures { result ≡ halved window least }
{
    lesser(window, greater(window / 2, least))
}

// Whether a time lies before the newest sample's, or before the start of the period that runs.
#[tactic(auto, using(crate::proofs::EarlyLaws::newest), unfolding(sender_rules::specs::Congestion::Phases::is_early))]
pub fn is_early(connection: Connection, time: u64) -> bool
    ensures { result ≡ is_early time connection }
{
    is_before(time, connection.period)
        || (connection.count > 0 && time < connection.samples[0].time)
}
