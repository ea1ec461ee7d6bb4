// The phase of pipeACK (RFC 7661): whether a connection's window is validated by its samples, and what is done when it has
// not been for long. A refused call leaves the record as it was. The call is allowed in every state of a request and leaves
// it alone.
#![tactic(auto)]

ghost use Rattle.std.specs.Prelude.{◌≡◌, ◌≤◌, max, map};
ghost use Rattle.std.specs.List.{reduce, filter};
ghost use Rattle.refusals.specs.Replies.{told};
ghost use Rattle.wire_rules.specs.Rates.Window.{longest_rtt};
ghost use Rattle.sender_rules.specs.Connections.Records.{most_bytes, most_samples};
ghost use Rattle.sender_rules.specs.Congestion.Phases.{is_recent, validated, is_validated, is_over, adjusted, run_on, phase_in_range};
ghost use Rattle.sender_rules.specs.Congestion.Calls.{congestion_calls};

use connection::{halved_down_to, is_early, is_in_range, with_period};
use rates::LONGEST_RTT;
use refusals::{Refusal, in_range};
use sender_rules::{Connection, Sample};

// A sample counts for three round trips, and for a second at least, in microseconds.
const ROUND_TRIPS: u64 = 3;

const LEAST_AGE: u64 = 1_000_000;

// The longest time without an adjustment in the non-validated phase, in microseconds.
const LONGEST_PERIOD: u64 = 300_000_000;

// The largest initial window, in bytes.
const LARGEST_INITIAL: u64 = 65_535;

// Whether a sample is not older than a limit. One of a later time than the present is not older.
#[tactic(auto, unfolding(sender_rules::specs::Congestion::Phases::is_recent), using(connection::proofs::TestLaws::sub_within))]
fn is_recent(sample: Sample, limit: u64, time: u64) -> bool
    ensures { result ≡ is_recent limit time sample }
{
    time.saturating_sub(sample.time) <= limit
}

// The bytes of the greatest sample that is not older than a limit, or none where none counts: pipeACK, by the law `greatest`.
fn pipe_ack(samples: &[Sample], limit: u64, time: u64) -> Option<u64>
    ensures { result ≡ reduce max (map (λ s. s.bytes) (filter (is_recent limit time) samples.now)) }
{
    samples
        .iter()
        .filter(|sample| is_recent(**sample, limit, time))
        .map(|sample| sample.bytes)
        .max()
}

// Whether a window is validated: by a pipeACK of at least half of it, or by none.
#[tactic(auto, unfolding(sender_rules::specs::Congestion::Phases::validated))]
fn is_validated(window: u64, pipe_ack: Option<u64>) -> bool
    ensures { result ≡ validated window pipe_ack }
{
    pipe_ack.is_none_or(|bytes| window <= bytes.saturating_mul(2))
}

// Whether more than the longest time has passed since the period's start.
#[tactic(auto, unfolding(sender_rules::specs::Congestion::Phases::is_over), using(connection::proofs::TestLaws::sub_beyond))]
fn is_over(period: Option<u64>, time: u64) -> bool
    ensures { result ≡ is_over time period }
{
    period.is_some_and(|start| time.saturating_sub(start) > LONGEST_PERIOD)
}

// The record after the longest time: ssthresh raised to three quarters of the window, and then the window halved, but not
// below the initial window.
fn adjust(connection: Connection, initial_window: u64) -> Connection
    requires { connection.window ≤ most_bytes }
    ensures { result ≡ adjusted initial_window connection }
{
    Connection {
        ssthresh: connection.ssthresh.max(3 * connection.window / 4),
        window: halved_down_to(connection.window, initial_window),
        ..connection
    }
}

// The record after a call that found it non-validated: adjusted where its period is over, which then starts again. A
// period that runs keeps its start.
#[tactic(auto, unfolding(sender_rules::specs::Congestion::Phases::run_on, sender_rules::specs::Congestion::Phases::started_at))]
fn run_on(connection: Connection, initial_window: u64, time: u64) -> Connection
    requires { connection.window ≤ most_bytes }
    ensures { result ≡ run_on initial_window time connection }
{
    if is_over(connection.period, time) {
        return with_period(adjust(connection, initial_window), Some(time));
    }
    with_period(connection, connection.period.or(Some(time)))
}

// Whether the round trip and the initial window are in their ranges.
#[tactic(auto, unfolding(sender_rules::specs::Congestion::Phases::phase_in_range))]
fn phase_in_range(rtt: u64, initial_window: u64) -> bool
    ensures { result ≡ phase_in_range rtt initial_window }
{
    in_range(1, rtt, LONGEST_RTT) && in_range(1, initial_window, LARGEST_INITIAL)
}

// Whether a connection's window is validated by its samples at a time.
#[tactic(auto, unfolding(sender_rules::specs::Congestion::Phases::is_validated), using(crate::proofs::PipeLaws::greatest))]
fn judge(connection: &Connection, rtt: u64, time: u64) -> bool
    requires { (connection.now.count ≤ most_samples) × (rtt ≤ longest_rtt) }
    ensures { result ≡ is_validated rtt time connection.now }
{
    let limit = (ROUND_TRIPS * rtt).max(LEAST_AGE);
    let samples = &connection.samples[..connection.count];
    is_validated(connection.window, pipe_ack(samples, limit, time))
}

// The phase of the connection at a time, judged by the window as it is: whether it is validated. The first call that finds
// it non-validated starts a period, and one that finds it validated ends it. One that finds it non-validated more than 300
// seconds after the start adjusts window and ssthresh, and starts the period again.
#[tactic(auto, using(connection::proofs::RangeLaws::ranges, crate::proofs::RangeLaws::round_trip))]
pub fn phase(
    connection: &mut Connection,
    rtt: u64,
    initial_window: u64,
    time: u64,
) -> Result<bool, Refusal>
    ensures answer { told result ≡ (congestion_calls.phase connection.old rtt initial_window time).said }
    ensures record { connection.new ≡ (congestion_calls.phase connection.old rtt initial_window time).left }
{
    if !is_in_range(*connection) || !phase_in_range(rtt, initial_window) {
        return Err(Refusal::OutOfRange);
    }
    if is_early(*connection, time) {
        return Err(Refusal::TimeBackwards);
    }
    if judge(connection, rtt, time) {
        *connection = with_period(*connection, None);
        return Ok(true);
    }
    *connection = run_on(*connection, initial_window, time);
    Ok(false)
}
