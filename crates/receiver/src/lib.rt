// A receiver: it reports the rate of a request back to the sender, in the eight bytes of a Quick-Start response.
#![tactic(auto)]

ghost use Rattle.std.specs.Prelude.{◌≡◌, ◌<◌, true, length};
ghost use Rattle.wire_rules.specs.Options.Wire.{nonce_limit};
ghost use Rattle.refusals.specs.Reply.{answer};
ghost use Rattle.refusals.specs.Replies.{told};
ghost use Rattle.gateway_rules.specs.Receiver.Reports.{report_on, receiver_in_range, received, response_after, reaction_to, reaction_in};

use gateway_rules::Reaction;
use inspect::look;
use options::{OPTION_LENGTH, response};
use rates::{TOP_CODE, lesser};
use refusals::Refusal;
use wire_rules::{Request, Response};

// Whether a ceiling and the length of a response buffer are in their ranges.
#[tactic(auto, unfolding(gateway_rules::specs::Receiver::Reports::receiver_in_range))]
fn in_ranges(ceiling: u32, len: usize) -> bool
    ensures { result ≡ receiver_in_range ceiling len }
{
    ceiling <= TOP_CODE && len == OPTION_LENGTH
}

// Writes the response to a request that came with an IP TTL: the lesser of rate and ceiling, the TTL Diff (IP
// TTL less QS TTL, modulo 256), and the nonce as it came.
#[tactic(auto, using(gateway_rules::proofs::Receiver::ReportLaws::no_report, crate::proofs::ReportLaws::report_by, crate::proofs::ReportLaws::not_refused))]
fn respond(
    response: &mut [u8],
    ttl: u8,
    request: Request,
    ceiling: u32,
) -> Result<Reaction, Refusal>
    requires ranges { receiver_in_range ceiling (length response.old) ≡ true }
    requires nonce { request.nonce < nonce_limit }
    ensures answer { told result ≡ answer (reaction_to (report_on ceiling ttl request)) }
    ensures buffer { response.new ≡ response_after response.old (answer (report_on ceiling ttl request)) }
{
    let rate = lesser(request.rate, ceiling);
    if rate == 0 {
        return Ok(Reaction::Unanswered);
    }
    response::write(
        response,
        Response {
            rate,
            ttl_diff: response::ttl_diff(ttl, request.qs_ttl),
            nonce: request.nonce,
        },
    )?;
    Ok(Reaction::Answered)
}

// A receiver with a ceiling: looks at the packet and writes the response to its request.
#[tactic(auto, using(gateway_rules::proofs::Receiver::ReportLaws::received_seven, crate::proofs::ReportLaws::received_refused, crate::proofs::ReportLaws::received_seen, crate::proofs::ReportLaws::nonce_small))]
pub fn receiver(packet: &[u8], ceiling: u32, response: &mut [u8]) -> Result<Reaction, Refusal>
    ensures answer { told result ≡ reaction_in (received (length packet.now) ceiling (length response.old) packet.now) }
    ensures buffer { response.new ≡ response_after response.old (received (length packet.now) ceiling (length response.old) packet.now) }
{
    if !in_ranges(ceiling, response.len()) {
        return Err(Refusal::OutOfRange);
    }
    let seen = look(packet)?;
    let Some((_, request)) = seen.asking else {
        return Err(Refusal::NoRequest);
    };
    respond(response, seen.ttl, request, ceiling)
}
