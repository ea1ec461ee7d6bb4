// The samples of pipeACK (RFC 7661): the bytes that were acknowledged in a round trip, and when. A refused call leaves the
// record as it was. The call is allowed in every state of a request and leaves it alone.
#![tactic(auto)]

ghost use Rattle.std.specs.Prelude.{◌≡◌, ◌≤◌};
ghost use Rattle.refusals.specs.Replies.{told};
ghost use Rattle.sender_rules.specs.Connections.Records.{most_samples};
ghost use Rattle.sender_rules.specs.Congestion.Phases.{sample_of, sampled};
ghost use Rattle.sender_rules.specs.Congestion.Calls.{congestion_calls};

use connection::{MOST_BYTES, MOST_SAMPLES, is_early, is_in_range};
use refusals::Refusal;
use sender_rules::{Connection, Sample};

// The record with a sample in front of the others; the fifth of those, the earliest added, gives way.
fn add(connection: Connection, sample: Sample) -> Connection
    requires { connection.count ≤ most_samples }
    ensures { result ≡ sampled connection sample }
{
    let [a, b, c, d, _] = connection.samples;
    Connection {
        samples: [sample, a, b, c, d],
        count: (connection.count + 1).min(MOST_SAMPLES),
        ..connection
    }
}

// Adds a sample: the bytes that were acknowledged in a round trip, and the time.
#[tactic(auto, using(connection::proofs::RangeLaws::ranges))]
pub fn sample(connection: &mut Connection, sample: Sample) -> Result<(), Refusal>
    ensures answer { told result ≡ (congestion_calls.sample connection.old (sample_of sample.time sample.bytes)).said }
    ensures record { connection.new ≡ (congestion_calls.sample connection.old (sample_of sample.time sample.bytes)).left }
{
    if !is_in_range(*connection) || sample.bytes > MOST_BYTES {
        return Err(Refusal::OutOfRange);
    }
    if is_early(*connection, sample.time) {
        return Err(Refusal::TimeBackwards);
    }
    *connection = add(*connection, sample);
    Ok(())
}
