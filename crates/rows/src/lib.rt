// A path lent as a row of hop records. One function goes through the row and spells it, hop by hop, as the bytes that the
// crate `hops` reads; then the call on bytes answers. Nothing is allocated: a row of 64 hops has its room on the stack.
#![tactic(auto)]

ghost use Rattle.std.specs.Prelude.{◌≡◌, [], ◌≤◌, ◌<◌, ◌++◌};
ghost use Rattle.arrayvec.specs.ArrayVec.{array_vec_len};
ghost use Rattle.refusals.specs.Reply.{answer, leaves, done, and_then};
ghost use Rattle.refusals.specs.Replies.{told};
ghost use Rattle.wire_rules.specs.Rates.Steps.{top_code};
ghost use Rattle.wire_rules.specs.Options.Wire.{nonce_limit};
ghost use Rattle.path_rules.specs.Hops.Rows.{most_routers, record_of};
ghost use Rattle.hops.specs.Replies.{verdict_reply_told};
ghost use Rattle.sender_rules.specs.Sender.Calls.{transport as transport_of};
ghost use Rattle.path_rules.specs.Path.Runs.{journey};
ghost use Rattle.path_rules.specs.Path.OwnSender.{own_transport};
ghost use Rattle.path_rules.specs.Rows.Rows.{router_of, hop_in_range, hops_summary, hops_call};
ghost use Rattle.path_rules.specs.Rows.Results.{summary_lent, summary_result, open_for, verdict_result};
ghost use Rattle.rows.specs.Parts.{last_place, spelt};

use arrayvec::ArrayVec;
use connection::{fresh_record, with_state};
use hops::{KNOWING, KNOWING_LENGTH, MOST_ROUTERS, SILENT, Verdict, summarize};
use options::NONCE_LIMIT;
use path::{SSTHRESH, TRANSPORT, WINDOW, run};
use path_rules::{Hop, Summary};
use rates::TOP_CODE;
use refusals::Refusal;
use sender_rules::{Connection, OpenRequest, State};
use wire_rules::Transport;

// Room for as many records as there can be: 384 bytes.
const ROOM: usize = MOST_ROUTERS as usize * KNOWING_LENGTH;

// ---- a row, hop by hop

// Whether a hop's numbers are in their ranges.
#[tactic(auto, unfolding(path_rules::specs::Rows::Rows::hop_in_range))]
fn hop_in_range(hop: Hop) -> bool
    ensures { result ≡ hop_in_range hop }
{
    hop.ceiling <= TOP_CODE && hop.fresh < NONCE_LIMIT
}

// Puts a hop's record behind those of the hops before it. There is room for it.
fn put_hop(records: &mut ArrayVec<u8, ROOM>, hop: Hop)
    requires { (array_vec_len records.old ≤ last_place) × (hop.ceiling ≤ top_code) × (hop.fresh < nonce_limit) }
    ensures { records.new.items ≡ records.old.items ++ record_of (router_of hop) }
{
    if hop.knows {
        let [a, b, c, d] = (hop.fresh * 4).to_be_bytes();
        let record = [KNOWING, hop.ceiling as u8, a, b, c, d];
        let _ = records.try_extend_from_slice(&record);
    } else {
        records.push(SILENT);
    }
}

// Puts the records of a row's hops into an empty room, one behind the other, where the hops are a row: 64 at most, each in
// range. The room is lent: handed out in the Result it was copied twice (docs/PERFORMANCE.md).
#[tactic(auto, using(crate::proofs::SpellLaws::begins, crate::proofs::SpellLaws::ends, crate::proofs::SpellLaws::not_taken, path_rules::proofs::Rows::RangeLaws::in_range_lem), unfolding(crate::specs::Parts::spelt))]
fn spell(row: &[Hop], records: &mut ArrayVec<u8, ROOM>) -> Result<(), Refusal>
    requires { records.old.items ≡ [] }
    ensures { and_then (told result) (λ done. answer records.new.items) ≡ spelt row.now }
{
    if row.len() > MOST_ROUTERS as usize {
        return Err(Refusal::OutOfRange);
    }
    for hop in row {
        if !hop_in_range(*hop) {
            return Err(Refusal::OutOfRange);
        }
        put_hop(records, *hop);
    }
    Ok(())
}

// ---- the calls over a row of hops

// The summary of a row of hops.
#[tactic(auto, using(crate::proofs::SpellLaws::reads, crate::proofs::SpellLaws::no_row))]
pub fn summarize_hops(row: &[Hop]) -> Result<Summary, Refusal>
    ensures { told result ≡ hops_summary most_routers row.now }
{
    let mut records = ArrayVec::new();
    spell(row, &mut records)?;
    summarize(records.as_slice())
}

// The run of a path over a row of hops, for a connection that has asked and a packet with its request. Everything is
// tested before a byte changes.
#[tactic(auto, using(crate::proofs::SpellLaws::reads, crate::proofs::SpellLaws::no_row))]
pub fn run_hops(
    connection: &mut Connection,
    packet: &mut [u8],
    row: &[Hop],
    ceiling: u32,
    transport: Transport,
) -> Result<Verdict, Refusal>
    ensures answer { verdict_reply_told result ≡ (hops_call most_routers connection.old packet.old row.now ceiling (transport_of transport.rtt transport.mss transport.headers)).said }
    ensures left { journey packet.new connection.new ≡ (hops_call most_routers connection.old packet.old row.now ceiling (transport_of transport.rtt transport.mss transport.headers)).left }
{
    let mut records = ArrayVec::new();
    spell(row, &mut records)?;
    run(connection, packet, records.as_slice(), ceiling, transport)
}

// ---- the calls for planners in C

const DONE: u32 = 0;

const UNANSWERED: u32 = 40;

const LOST: u32 = 42;

const ACCEPTED: u32 = 100;

const NOT_ACCEPTED: u32 = 200;

// Writes a summary's three numbers into a buffer of three.
fn put_summary(answer: Result<Summary, Refusal>, numbers: &mut [u32]) -> Result<(), Refusal>
    ensures answer { told result ≡ done (summary_lent numbers.old (told answer)) }
    ensures numbers { numbers.new ≡ leaves numbers.old (summary_lent numbers.old (told answer)) }
{
    if numbers.len() != 3 {
        return Err(Refusal::OutOfRange);
    }
    let sum = answer?;
    numbers.copy_from_slice(&[sum.routers, sum.silent, sum.least]);
    Ok(())
}

// A connection of our own whose request waits for its response.
fn open_for(code: u32, ttl_diff: u8, nonce: u32) -> Connection
    ensures { result ≡ open_for code ttl_diff nonce }
{
    with_state(
        fresh_record(WINDOW, SSTHRESH),
        State::Asked(OpenRequest {
            code,
            ttl_diff,
            nonce,
        }),
    )
}

// The number of a run's answer. A rate is at most 15: the remainder is the rate.
fn verdict_number(answer: Result<Verdict, Refusal>) -> u32
    ensures { result ≡ verdict_result (verdict_reply_told answer) }
{
    match answer {
        Err(why) => why.number(),
        Ok(Verdict::Lost) => LOST,
        Ok(Verdict::Unanswered) => UNANSWERED,
        Ok(Verdict::NotAccepted(why)) => NOT_ACCEPTED + why.number(),
        Ok(Verdict::Accepted(rate)) => ACCEPTED + rate % 100,
    }
}

// The summary of a row of hops, into a buffer of three numbers.
pub fn qs_path_summary(row: &[Hop], summary: &mut [u32]) -> u32
    ensures result { result ≡ summary_result (done (summary_lent summary.old (hops_summary most_routers row.now))) }
    ensures summary { summary.new ≡ leaves summary.old (summary_lent summary.old (hops_summary most_routers row.now)) }
{
    match put_summary(summarize_hops(row), summary) {
        Ok(()) => DONE,
        Err(why) => why.number(),
    }
}

// The run of a path over a row of hops, for a request that is open, by its code, starting TTL Diff and nonce, and a packet
// with a request, which need not be that one: the sender judges what comes back.
pub fn qs_path_run(
    packet: &mut [u8],
    row: &[Hop],
    ceiling: u32,
    code: u32,
    ttl_diff: u8,
    nonce: u32,
) -> u32
    ensures result { result ≡ verdict_result (hops_call most_routers (open_for code ttl_diff nonce) packet.old row.now ceiling own_transport).said }
    ensures packet { packet.new ≡ (hops_call most_routers (open_for code ttl_diff nonce) packet.old row.now ceiling own_transport).left.packet }
{
    let mut connection = open_for(code, ttl_diff, nonce);
    verdict_number(run_hops(&mut connection, packet, row, ceiling, TRANSPORT))
}
