// The reaction to an ECN echo (RFC 2481). A refused call leaves the record as it was. The call is allowed in every state of
// a request and leaves it alone.
#![tactic(auto)]

ghost use Rattle.std.specs.Prelude.{◌≡◌};
ghost use Rattle.refusals.specs.Replies.{told};
ghost use Rattle.sender_rules.specs.Congestion.Echoes.{is_ahead, reacted};
ghost use Rattle.sender_rules.specs.Congestion.Calls.{congestion_calls};

use connection::{halved_down_to, is_in_range, with_mark};
use rates::LARGEST_SEGMENT;
use refusals::{Refusal, in_range};
use sender_rules::Connection;

// Half of the sequence numbers: one that is ahead of another by 1 or more, and by less than this, comes after it.
const HALF_SEQUENCE: u32 = 2_147_483_648;

// Whether an acknowledgement is ahead of the mark, by 1 to 2^31 - 1 modulo 2^32; it is where there is no mark.
#[tactic(auto, unfolding(sender_rules::specs::Congestion::Echoes::is_ahead), using(crate::proofs::EchoLaws::not_ahead, crate::proofs::EchoLaws::ahead_by))]
fn is_ahead(acknowledgement: u32, mark: Option<u32>) -> bool
    ensures { result ≡ is_ahead acknowledgement mark }
{
    mark.is_none_or(|number| (1..HALF_SEQUENCE).contains(&acknowledgement.wrapping_sub(number)))
}

// The record after a reaction: the window halved, but not below a segment, ssthresh the same, and the mark set.
fn react(connection: Connection, highest: u32, mss: u64) -> Connection
    ensures { result ≡ reacted connection highest mss }
{
    let window = halved_down_to(connection.window, mss);
    Connection {
        window,
        ssthresh: window,
        ..with_mark(connection, Some(highest))
    }
}

// An ECN echo that came with an acknowledgement, at the highest number sent so far: the first one of a window of data
// lowers the window, the others do nothing. Says whether the echo was reacted to.
pub fn echo(
    connection: &mut Connection,
    acknowledgement: u32,
    highest: u32,
    mss: u64,
) -> Result<bool, Refusal>
    ensures answer { told result ≡ (congestion_calls.echo connection.old acknowledgement highest mss).said }
    ensures record { connection.new ≡ (congestion_calls.echo connection.old acknowledgement highest mss).left }
{
    if !is_in_range(*connection) || !in_range(1, mss, LARGEST_SEGMENT) {
        return Err(Refusal::OutOfRange);
    }
    let ahead = is_ahead(acknowledgement, connection.mark);
    if ahead {
        *connection = react(*connection, highest, mss);
    }
    Ok(ahead)
}
