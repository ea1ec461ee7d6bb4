// The sender takes the response to its request, and accepts the rate or not. A refused call leaves the connection's record
// as it was, but for 13, 14 and 15, which end the open request.
#![tactic(auto)]

ghost use Rattle.std.specs.Prelude.{◌≡◌, ◌≤◌, ◌<◌};
ghost use Rattle.wire_rules.specs.Rates.Steps.{top_code};
ghost use Rattle.wire_rules.specs.Options.Wire.{nonce_limit};
ghost use Rattle.refusals.specs.Replies.{told};
ghost use Rattle.sender_rules.specs.Sender.Calls.{transport as transport_of, judged, sender_calls};

use connection::is_in_range;
use options::{OPTION_LENGTH, response};
use rates::{transport_in_range, window_bytes};
use refusals::{Refusal, in_range};
use sender_rules::{Before, Connection, OpenRequest, State};
use wire_rules::{Response, Transport};

// Judges a response by the open request: its rate, its TTL Diff, then its nonce in the fields up to that rate. What it
// answers is the rate.
#[tactic(auto, unfolding(sender_rules::specs::Sender::Calls::judged), using(crate::proofs::CallLaws::agreeing))]
fn judge(request: OpenRequest, response: Response) -> Result<u32, Refusal>
    requires { (request.code ≤ top_code) × (request.nonce < nonce_limit) × (response.nonce < nonce_limit) }
    ensures { told result ≡ judged request response }
{
    if !in_range(1, response.rate as u64, request.code as u64) {
        return Err(Refusal::WrongRate);
    }
    if response.ttl_diff != request.ttl_diff {
        return Err(Refusal::WrongTtlDiff);
    }
    if !nonce::agree(response.rate, request.nonce, response.nonce)? {
        return Err(Refusal::WrongNonce);
    }
    Ok(response.rate)
}

// Takes the response to the open request from a buffer of eight bytes. Accepted or refused with 13, 14 or 15, the
// request is open no longer. Where the Quick-Start window of the rate accepted is above the window, it becomes the window
// and the connection is quick.
#[tactic(auto, unfolding(common::specs::Choice::within, sender_rules::specs::Sender::Calls::granted), using(sender_rules::proofs::Sender::CallLaws::ends, crate::proofs::CallLaws::asked_in, crate::proofs::CallLaws::fits_top, crate::proofs::CallLaws::window_is, crate::proofs::CallLaws::not_asked))]
pub fn take_response(
    connection: &mut Connection,
    response: &[u8],
    transport: Transport,
) -> Result<u32, Refusal>
    ensures answer { told result ≡ (sender_calls.take_response connection.old response.now (transport_of transport.rtt transport.mss transport.headers)).said }
    ensures record { connection.new ≡ (sender_calls.take_response connection.old response.now (transport_of transport.rtt transport.mss transport.headers)).left }
{
    if !is_in_range(*connection)
        || !transport_in_range(transport)
        || response.len() != OPTION_LENGTH
    {
        return Err(Refusal::OutOfRange);
    }
    let State::Asked(request) = connection.state else {
        return Err(Refusal::WrongState);
    };
    let read = response::read(response)?;
    connection.state = State::Idle;
    let rate = judge(request, read)?;
    // Of a rate from 1 to 15 the window is never refused.
    let window = window_bytes(rate, transport)?;
    if window > connection.window {
        connection.state = State::Quick(Before {
            window: connection.window,
        });
        connection.window = window;
    }
    Ok(rate)
}
