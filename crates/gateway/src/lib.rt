// The functions for C forwarding loops, which the crate gateway_c exports under their names. Each answers with a number:
// 0 for what was done, 1 to 15 for the refusals of the table, 40 for a receiver that leaves a request unanswered, 41 for a
// packet that marking would drop. include/quickstart.h tells a caller in C what each function does; here each has the
// contract of what it stands for.
#![tactic(auto)]

ghost use Rattle.std.specs.Prelude.{◌≡◌, length};
ghost use Rattle.refusals.specs.Reply.{leaves, done};
ghost use Rattle.refusals.specs.Replies.{told};
ghost use Rattle.wire_rules.specs.Ipv4.Marks.{mark_reply, marked_packet};
ghost use Rattle.gateway_rules.specs.Router.Routers.{routed, silently_routed, ledger_router};
ghost use Rattle.gateway_rules.specs.Receiver.Reports.{received, response_after, reaction_in};
ghost use Rattle.gateway.specs.Results.{router_result, receiver_result, mark_result, lent_by_c};

use gateway_rules::{Ledger, Reaction};
use ipv4::ecn::mark;
use receiver::receiver;
use refusals::Refusal;
use router::{router, router_with_ledger, silent_router};
use wire_rules::Marking;

const DONE: u32 = 0;

const UNANSWERED: u32 = 40;

const DROP: u32 = 41;

// The number of each answer. The three stay apart: what was done has other numbers in each.
fn routed_number(answer: Result<(), Refusal>) -> u32
    ensures { result ≡ router_result (told answer) }
{
    match answer {
        Ok(()) => DONE,
        Err(why) => why.number(),
    }
}

fn received_number(answer: Result<Reaction, Refusal>) -> u32
    ensures { result ≡ receiver_result (told answer) }
{
    match answer {
        Ok(Reaction::Answered) => DONE,
        Ok(Reaction::Unanswered) => UNANSWERED,
        Err(why) => why.number(),
    }
}

fn marked_number(answer: Result<Marking, Refusal>) -> u32
    ensures { result ≡ mark_result (told answer) }
{
    match answer {
        Ok(Marking::Marked) => DONE,
        Ok(Marking::Dropped) => DROP,
        Err(why) => why.number(),
    }
}

// A router without a ledger.
pub fn qs_router(packet: &mut [u8], ceiling: u32, fresh_nonce: u32) -> u32
    ensures result { result ≡ router_result (done (routed (length packet.old) ceiling fresh_nonce packet.old)) }
    ensures packet { packet.new ≡ leaves packet.old (routed (length packet.old) ceiling fresh_nonce packet.old) }
{
    routed_number(router(packet, ceiling, fresh_nonce))
}

// A router with a ledger, whose row and stored tick the caller keeps, as he does its allowance. The tick is stored
// as the router left it, which is as it was where the ledger was not asked or the call was refused.
// The parameters stay as they are, one by one: they are those of the C function.
pub fn qs_router_ledger(
    packet: &mut [u8],
    ceiling: u32,
    fresh_nonce: u32,
    row: &mut [u64],
    tick: &mut u64,
    allowance: u64,
    present: u64,
) -> u32
    ensures result { result ≡ router_result (ledger_router ceiling fresh_nonce present (lent_by_c packet.old row.old tick.old allowance)).said }
    ensures left { lent_by_c packet.new row.new tick.new allowance ≡ (ledger_router ceiling fresh_nonce present (lent_by_c packet.old row.old tick.old allowance)).left }
{
    let mut ledger = Ledger {
        tick: *tick,
        allowance,
    };
    let answer = router_with_ledger(packet, ceiling, fresh_nonce, row, &mut ledger, present);
    *tick = ledger.tick;
    routed_number(answer)
}

// A silent router.
pub fn qs_silent_router(packet: &mut [u8]) -> u32
    ensures result { result ≡ router_result (done (silently_routed (length packet.old) packet.old)) }
    ensures packet { packet.new ≡ leaves packet.old (silently_routed (length packet.old) packet.old) }
{
    routed_number(silent_router(packet))
}

// A receiver, with room for its response.
pub fn qs_receiver(packet: &[u8], ceiling: u32, response: &mut [u8]) -> u32
    ensures result { result ≡ receiver_result (reaction_in (received (length packet.now) ceiling (length response.old) packet.now)) }
    ensures buffer { response.new ≡ response_after response.old (received (length packet.now) ceiling (length response.old) packet.now) }
{
    received_number(receiver(packet, ceiling, response))
}

// ECN marking.
pub fn qs_mark(packet: &mut [u8]) -> u32
    ensures result { result ≡ mark_result (mark_reply packet.old) }
    ensures packet { packet.new ≡ marked_packet packet.old }
{
    marked_number(mark(packet))
}
