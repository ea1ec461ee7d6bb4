// The rules of a gateway: ledger, routers, receiver.
// A rules crate has types, definitions, laws and claims, and no function. Here are the types that its definitions
// speak of; specs/ says what is promised, in the order that specs/Lib.antt gives; proofs/ proves it. The functions
// that keep these rules stand in the crates ledger, inspect, router and receiver.
#![tactic(auto)]

use wire_rules::Request;

// ---- ledger

// The ledger's record beside its row: the tick of the last call that was not refused, and the most
// bits a second that the approvals of the last S ticks may add up to, S the row's length.
#[derive(Clone, Copy, Debug, PartialEq, Eq)]
pub struct Ledger {
    pub tick: u64,
    pub allowance: u64,
}

// ---- inspect

// What is seen of a packet: its IP TTL, and what it asks for. That is a request, with the place of its option in the
// packet, or nothing: there is no Quick-Start option, or one of another function than a request's.
#[derive(Clone, Copy, Debug, PartialEq, Eq)]
pub struct Seen {
    pub ttl: u8,
    pub asking: Option<(usize, Request)>,
}

// ---- router

// What a router decides of a request.
#[derive(Clone, Copy, Debug, PartialEq, Eq)]
pub enum Decision {
    // There is nothing to decide: no rate is asked for.
    Nothing,
    // The request that goes on.
    Approved(Request),
    Denied,
}

// ---- receiver

// What a receiver does with a request.
#[derive(Clone, Copy, Debug, PartialEq, Eq)]
pub enum Reaction {
    // The response was written.
    Answered,
    // No rate is left to report: nothing was written.
    Unanswered,
}
