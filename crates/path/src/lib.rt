// The run of a path: a packet goes from hop to hop, each router or silent router on the packet as the last one left it,
// then to the receiver, and what the receiver answers goes back to the sender. It calls the very functions that a
// gateway calls.
#![tactic(auto)]

ghost use Rattle.std.specs.Prelude.{◌≡◌};
ghost use Rattle.refusals.specs.Reply.{answer, leaves, done};
ghost use Rattle.refusals.specs.Replies.{told};
ghost use Rattle.sender_rules.specs.Sender.Calls.{transport as transport_of, while_asked};
ghost use Rattle.path_rules.specs.Hops.Rows.{most_routers, hops_from};
ghost use Rattle.hops.specs.Replies.{verdict_told, verdict_reply_told};
ghost use Rattle.path_rules.specs.Path.Runs.{hop as one_hop, path_calls, concluded, run_by, ran, journey, run_in_range, start_reply, run_call};

use accepting::take_response;
use connection::is_in_range;
use gateway_rules::Reaction;
use hops::{MOST_ROUTERS, Verdict, length_of, router_at, survey};
use inspect::look;
use path_rules::Router;
use rates::{TOP_CODE, transport_in_range};
use receiver::receiver;
use refusals::Refusal;
use router::{router, silent_router};
use sender_rules::{Connection, State};
use wire_rules::Transport;

// The sender that a path is run with where nobody lends a connection: its window and ssthresh; and its round trip,
// segment size and headers, also together.
pub const WINDOW: u64 = 14_600;

pub const SSTHRESH: u64 = 65_535;

pub const RTT: u64 = 600_000;

pub const MSS: u64 = 1460;

pub const HEADERS: u64 = 40;

pub const TRANSPORT: Transport = Transport {
    rtt: RTT,
    mss: MSS,
    headers: HEADERS,
};

// ---- the hops' travel

// One hop: its router or silent router on the packet.
fn hop(packet: &mut [u8], here: Router) -> Result<(), Refusal>
    ensures answer { told result ≡ done (one_hop here packet.old) }
    ensures packet { packet.new ≡ leaves packet.old (one_hop here packet.old) }
{
    match here {
        Router::Knowing(ceiling, fresh) => router(packet, ceiling, fresh),
        Router::Silent => silent_router(packet),
    }
}

// All hops of a row, one after the other; a refusal ends it. The records are gone through as in `hops::survey`: an iterator
// for both would need laws longer than the two loops.
#[tactic(auto, using(crate::proofs::RunLaws::sets_out, crate::proofs::RunLaws::at_end, crate::proofs::RunLaws::at_limit, crate::proofs::RunLaws::fits_behind))]
fn travel(packet: &mut [u8], row: &[u8]) -> Result<(), Refusal>
    ensures answer { told result ≡ (path_calls.travel (hops_from most_routers row.now).routers packet.old).said }
    ensures packet { packet.new ≡ (path_calls.travel (hops_from most_routers row.now).routers packet.old).left }
{
    let mut at = 0;
    for _ in 0..MOST_ROUTERS {
        let Some(here) = router_at(row, at) else {
            break;
        };
        hop(packet, here)?;
        at += length_of(here);
    }
    Ok(())
}

// ---- receiver and sender

// The receiver looks at the packet, and what it answers goes to the sender.
#[tactic(auto, using(crate::proofs::RunLaws::was_answered))]
fn conclude(
    connection: &mut Connection,
    packet: &[u8],
    ceiling: u32,
    transport: Transport,
) -> Verdict
    ensures { ran (verdict_told result) packet.now connection.new ≡ concluded path_calls connection.old (transport_of transport.rtt transport.mss transport.headers) packet.now (path_calls.receive ceiling packet.now) }
{
    let mut response = [0; 8];
    match receiver(packet, ceiling, &mut response) {
        // Never after a run has started: the packet is without fault and carries a request.
        Err(why) => Verdict::NotAccepted(why),
        Ok(Reaction::Unanswered) => Verdict::Unanswered,
        Ok(Reaction::Answered) => match take_response(connection, &response, transport) {
            Ok(rate) => Verdict::Accepted(rate),
            Err(why) => Verdict::NotAccepted(why),
        },
    }
}

// The run from the first hop to the sender.
fn run_through(
    connection: &mut Connection,
    packet: &mut [u8],
    row: &[u8],
    ceiling: u32,
    transport: Transport,
) -> Verdict
    ensures { ran (verdict_told result) packet.new connection.new ≡ run_by path_calls connection.old (transport_of transport.rtt transport.mss transport.headers) ceiling (hops_from most_routers row.now).routers packet.old }
{
    if travel(packet, row).is_err() {
        return Verdict::Lost;
    }
    conclude(connection, packet, ceiling, transport)
}

// ---- the call

// Whether the numbers of a run, its record among them, are in their ranges.
#[tactic(auto, unfolding(path_rules::specs::Path::Runs::run_in_range))]
fn run_in_range(connection: Connection, ceiling: u32, transport: Transport) -> bool
    ensures { result ≡ run_in_range connection ceiling (transport_of transport.rtt transport.mss transport.headers) }
{
    ceiling <= TOP_CODE && transport_in_range(transport) && is_in_range(connection)
}

// Whether a state waits for a response.
fn waiting(state: State) -> Result<(), Refusal>
    ensures { told result ≡ while_asked state (λ request. answer tt) }
{
    match state {
        State::Asked(_) => Ok(()),
        State::Idle | State::Quick(_) => Err(Refusal::WrongState),
    }
}

// Looks at the packet as it was lent, and at the record's state.
fn look_first(connection: Connection, packet: &[u8]) -> Result<(), Refusal>
    ensures { told result ≡ start_reply connection packet.now }
{
    let seen = look(packet)?;
    if seen.asking.is_none() {
        return Err(Refusal::NoRequest);
    }
    waiting(connection.state)
}

// The run of a path over a row of hops, for a connection that has asked and a packet with its request. Everything is
// tested before a byte changes.
pub fn run(
    connection: &mut Connection,
    packet: &mut [u8],
    row: &[u8],
    ceiling: u32,
    transport: Transport,
) -> Result<Verdict, Refusal>
    ensures answer { verdict_reply_told result ≡ (run_call most_routers connection.old packet.old row.now ceiling (transport_of transport.rtt transport.mss transport.headers)).said }
    ensures left { journey packet.new connection.new ≡ (run_call most_routers connection.old packet.old row.now ceiling (transport_of transport.rtt transport.mss transport.headers)).left }
{
    if survey(row).end != row.len() || !run_in_range(*connection, ceiling, transport) {
        return Err(Refusal::OutOfRange);
    }
    look_first(*connection, packet)?;
    Ok(run_through(connection, packet, row, ceiling, transport))
}
