// A router: it lowers the IP TTL of a packet and writes the checksum anew, and where the packet carries a
// Quick-Start request it approves the rate, lowers it or denies it. A silent router, document 01's name for one
// that does not know Quick-Start, does the first part only.
#![tactic(auto)]

ghost use Rattle.std.specs.Prelude.{◌≡◌, ◌+◌, ◌<◌, ◌≤◌, true, Some, length};
ghost use Rattle.refusals.specs.Reply.{answer, leaves, done};
ghost use Rattle.refusals.specs.Replies.{told};
ghost use Rattle.wire_rules.specs.Rates.Steps.{top_code};
ghost use Rattle.wire_rules.specs.Options.Wire.{option_length, nonce_limit};
ghost use Rattle.wire_rules.specs.Ipv4.Views.{put, put_request};
ghost use Rattle.gateway_rules.specs.Ledgers.Calls.{lent, code_in, link_in};
ghost use Rattle.gateway_rules.specs.Inspect.Sights.{request_of};
ghost use Rattle.gateway_rules.specs.Router.Decisions.{decided, written_by};
ghost use Rattle.gateway_rules.specs.Router.Routers.{router_in_range, routed_view, routed, silently_routed, wish_of, ceiling_from, passage, ledger_router};
ghost use Rattle.router.specs.Parts.{met, met_view, ReadableWhere, decision_written};

use gateway_rules::{Decision, Ledger};
use inspect::look;
use ipv4::{forward, pass_on};
use ledger::{ask, link_in_range};
use nonce::after_lowering;
use options::{NONCE_LIMIT, OPTION_LENGTH, request};
use rates::{TOP_CODE, lesser};
use refusals::Refusal;
use wire_rules::Request;

// How a denial is written into the option.
const DENIAL: Request = Request {
    rate: 0,
    qs_ttl: 0,
    nonce: 0,
};

// Whether a ceiling and a fresh nonce are in their ranges.
#[tactic(auto, unfolding(gateway_rules::specs::Router::Routers::router_in_range))]
fn in_ranges(ceiling: u32, fresh: u32) -> bool
    ensures { result ≡ router_in_range ceiling fresh }
{
    ceiling <= TOP_CODE && fresh < NONCE_LIMIT
}

// The decision on a request. At rate 0 there is nothing to decide. Any other rate is lowered to the ceiling, and
// where that leaves none the request is denied. Otherwise the QS TTL falls by one and the nonce's fields between the two
// rates are refreshed; the nonce is never refused, since the numbers are in their ranges.
#[tactic(auto, unfolding(gateway_rules::specs::Router::Decisions::decided, gateway_rules::specs::Router::Decisions::one_less))]
fn decide(request: Request, ceiling: u32, fresh: u32) -> Decision
    requires { (request.rate ≤ top_code) × (request.nonce < nonce_limit) × (ceiling ≤ top_code) × (fresh < nonce_limit) }
    ensures { result ≡ decided ceiling fresh request }
{
    if request.rate == 0 {
        return Decision::Nothing;
    }
    let rate = lesser(request.rate, ceiling);
    if rate == 0 {
        return Decision::Denied;
    }
    let Ok(nonce) = after_lowering(request.rate, rate, request.nonce, fresh) else {
        return Decision::Denied;
    };
    Decision::Approved(Request {
        rate,
        qs_ttl: request.qs_ttl.wrapping_sub(1),
        nonce,
    })
}

// Rewrites the request at a place of the packet: the option's eight bytes are lent, and no others. What is no
// request stays as it is, so the answer is not asked for.
fn rewrite_at(packet: &mut [u8], place: usize, request: Request)
    requires { place + option_length ≤ length packet.old }
    ensures { packet.new ≡ put_request (Some place) (Some request) packet.old }
{
    let _ = request::rewrite(&mut packet[place..place + OPTION_LENGTH], request);
}

// Writes a decision into the option at a place. A denial writes a rate, a QS TTL and a nonce of 0.
fn write_decision(packet: &mut [u8], place: usize, decision: Decision)
    requires { place + option_length ≤ length packet.old }
    ensures { packet.new ≡ put_request (Some place) (written_by decision) packet.old }
{
    match decision {
        Decision::Nothing => {}
        Decision::Approved(request) => rewrite_at(packet, place, request),
        Decision::Denied => rewrite_at(packet, place, DENIAL),
    }
}

// Decides what the packet asks for, and writes the decision into its option.
#[tactic(auto, using(gateway_rules::proofs::Router::DecisionLaws::in_range_lem))]
fn answer_request(packet: &mut [u8], asking: Option<(usize, Request)>, ceiling: u32, fresh: u32)
    requires { ReadableWhere asking (length packet.old) × (router_in_range ceiling fresh ≡ true) }
    ensures { packet.new ≡ decision_written ceiling fresh asking packet.old }
{
    if let Some((place, request)) = asking {
        write_decision(packet, place, decide(request, ceiling, fresh));
    }
}

// The whole of what a router does to a packet that it can pass on, with this ceiling. Passing on is never refused
// here: the header and the IP TTL were tested before, and the decision changes neither. Ceiling and fresh nonce stay
// two numbers: a ledger's grant takes the place of the first alone, so a struct of both would be taken apart again.
fn send_on(packet: &mut [u8], asking: Option<(usize, Request)>, ceiling: u32, fresh: u32)
    requires { (met (length packet.old) packet.old ≡ answer asking) × (router_in_range ceiling fresh ≡ true) }
    ensures { packet.new ≡ put packet.old (routed_view ceiling fresh (met_view packet.old asking)) }
{
    answer_request(packet, asking, ceiling, fresh);
    let _ = pass_on(packet);
}

// Looks at a packet, and tests that its IP TTL lets it be passed on: what it asks for then. The request is copied field by
// field: as one value it cost 8 ns more a packet (docs/PERFORMANCE.md).
fn meet(packet: &[u8]) -> Result<Option<(usize, Request)>, Refusal>
    ensures { told result ≡ met (length packet.now) packet.now }
{
    let seen = look(packet)?;
    if seen.ttl <= 1 {
        return Err(Refusal::TtlExpired);
    }
    let Some((place, request)) = seen.asking else {
        return Ok(None);
    };
    Ok(Some((
        place,
        Request {
            rate: request.rate,
            qs_ttl: request.qs_ttl,
            nonce: request.nonce,
        },
    )))
}

// A router without a ledger, with a ceiling and a fresh nonce.
pub fn router(packet: &mut [u8], ceiling: u32, fresh: u32) -> Result<(), Refusal>
    ensures answer { told result ≡ done (routed (length packet.old) ceiling fresh packet.old) }
    ensures packet { packet.new ≡ leaves packet.old (routed (length packet.old) ceiling fresh packet.old) }
{
    if !in_ranges(ceiling, fresh) {
        return Err(Refusal::OutOfRange);
    }
    let asking = meet(packet)?;
    send_on(packet, asking, ceiling, fresh);
    Ok(())
}

// The rate code that a router asks its ledger for: 0 where it does not ask, and no Option, as the definition `wish_of` and
// its claims have it.
fn wish(asking: Option<(usize, Request)>, ceiling: u32) -> u32
    ensures { result ≡ wish_of ceiling (request_of asking) }
{
    match asking {
        None => 0,
        Some((_, request)) => lesser(request.rate, ceiling),
    }
}

// The ceiling that a router with a ledger decides by: the ledger's grant where it asks for a code, and else its own.
fn ceiling_by(
    row: &mut [u64],
    ledger: &mut Ledger,
    tick: u64,
    ceiling: u32,
    code: u32,
) -> Result<u32, Refusal>
    ensures answer { told result ≡ code_in (ceiling_from ceiling (lent row.old ledger.old) tick code) }
    ensures link { lent row.new ledger.new ≡ leaves (lent row.old ledger.old) (link_in (ceiling_from ceiling (lent row.old ledger.old) tick code)) }
{
    if code == 0 {
        return Ok(ceiling);
    }
    ask(row, ledger, tick, code)
}

// A router with the ledger of its link, whose grant it takes as its ceiling.
pub fn router_with_ledger(
    packet: &mut [u8],
    ceiling: u32,
    fresh: u32,
    row: &mut [u64],
    ledger: &mut Ledger,
    tick: u64,
) -> Result<(), Refusal>
    ensures answer { told result ≡ (ledger_router ceiling fresh tick (passage packet.old (lent row.old ledger.old))).said }
    ensures passage { passage packet.new (lent row.new ledger.new) ≡ (ledger_router ceiling fresh tick (passage packet.old (lent row.old ledger.old))).left }
{
    if !(in_ranges(ceiling, fresh) && link_in_range(row.len(), ledger.allowance)) {
        return Err(Refusal::OutOfRange);
    }
    let asking = meet(packet)?;
    let granted = ceiling_by(row, ledger, tick, ceiling, wish(asking, ceiling))?;
    send_on(packet, asking, granted, fresh);
    Ok(())
}

// A silent router: the IP part only.
pub fn silent_router(packet: &mut [u8]) -> Result<(), Refusal>
    ensures answer { told result ≡ done (silently_routed (length packet.old) packet.old) }
    ensures packet { packet.new ≡ leaves packet.old (silently_routed (length packet.old) packet.old) }
{
    forward(packet)
}
