// The sender asks: it writes the request into a lent buffer, and the connection waits for the response from then on. A
// refused call changes neither the connection's record nor the buffer.
#![tactic(auto)]

ghost use Rattle.std.specs.Prelude.{◌≡◌};
ghost use Rattle.refusals.specs.Replies.{told};
ghost use Rattle.sender_rules.specs.Sender.Calls.{ask_in_range, is_busy, is_soon, asked, wish as wish_of, sending, sender_calls};

use connection::{is_before, is_in_range, with_last_request, with_state};
use options::{NONCE_LIMIT, OPTION_LENGTH, request, response};
use rates::{LONGEST_RTT, TOP_CODE};
use refusals::{Refusal, in_range};
use sender_rules::{Connection, OpenRequest, State, Wish};
use wire_rules::Request;

// Whether the numbers of an asking, and the length of its buffer, are in their ranges.
#[tactic(auto, unfolding(sender_rules::specs::Sender::Calls::ask_in_range, common::specs::Choice::within))]
fn ask_in_range(wish: Wish, len: usize) -> bool
    ensures { result ≡ ask_in_range wish.code wish.ttl wish.nonce wish.rtt len }
{
    in_range(1, wish.code as u64, TOP_CODE as u64)
        && wish.ttl > 0
        && wish.nonce < NONCE_LIMIT
        && in_range(1, wish.rtt, LONGEST_RTT)
        && len == OPTION_LENGTH
}

// Whether a request is open or was taken up.
#[tactic(auto, unfolding(sender_rules::specs::Sender::Calls::is_busy))]
fn is_busy(state: State) -> bool
    ensures { result ≡ is_busy state }
{
    !matches!(state, State::Idle)
}

// Whether less than a round trip has passed since the last request.
#[tactic(auto, unfolding(sender_rules::specs::Sender::Calls::is_soon))]
fn is_soon(time: u64, rtt: u64, last: Option<u64>) -> bool
    ensures { result ≡ is_soon time rtt last }
{
    last.is_some_and(|t| time < t || time - t < rtt)
}

// The record after an asking: asked, with the starting TTL Diff, and the time kept. The round trip takes no part in it.
fn ask_opened(connection: Connection, wish: Wish) -> Connection
    ensures { result ≡ asked connection wish }
{
    let open = OpenRequest {
        code: wish.code,
        ttl_diff: response::ttl_diff(wish.ttl, wish.qs_ttl),
        nonce: wish.nonce,
    };
    with_last_request(with_state(connection, State::Asked(open)), Some(wish.time))
}

// Asks for a code from 1 to 15: writes the request into a buffer of eight bytes, to be sent with this IP TTL. The
// connection waits for the response from then on. Refused while a request is open or taken up, and within a round trip
// of the last one.
#[tactic(auto, using(sender_rules::proofs::Sender::CallLaws::ask_sent))]
pub fn ask(connection: &mut Connection, wish: Wish, request: &mut [u8]) -> Result<(), Refusal>
    ensures answer { told result ≡ (sender_calls.ask connection.old (wish_of wish.code wish.ttl wish.qs_ttl wish.nonce wish.rtt wish.time) request.old).said }
    ensures record { sending connection.new request.new ≡ (sender_calls.ask connection.old (wish_of wish.code wish.ttl wish.qs_ttl wish.nonce wish.rtt wish.time) request.old).left }
{
    if !is_in_range(*connection) || !ask_in_range(wish, request.len()) {
        return Err(Refusal::OutOfRange);
    }
    if is_before(wish.time, connection.last_request) {
        return Err(Refusal::TimeBackwards);
    }
    if is_busy(connection.state) || is_soon(wish.time, wish.rtt, connection.last_request) {
        return Err(Refusal::TooSoon);
    }
    request::write(
        request,
        Request {
            rate: wish.code,
            qs_ttl: wish.qs_ttl,
            nonce: wish.nonce,
        },
    )?;
    *connection = ask_opened(*connection, wish);
    Ok(())
}
