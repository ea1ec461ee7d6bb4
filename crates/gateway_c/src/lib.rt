// The functions exported to C forwarding loops: each calls the function of its name in the crate `gateway`, and has its
// contract. They stand twice for the C interface alone. include/quickstart.h tells a caller in C what each does.
#![tactic(auto)]

ghost use Rattle.std.specs.Prelude.{◌≡◌, length};
ghost use Rattle.refusals.specs.Reply.{leaves, done};
ghost use Rattle.wire_rules.specs.Ipv4.Marks.{mark_reply, marked_packet};
ghost use Rattle.gateway_rules.specs.Router.Routers.{routed, silently_routed, ledger_router};
ghost use Rattle.gateway_rules.specs.Receiver.Reports.{received, response_after, reaction_in};
ghost use Rattle.gateway.specs.Results.{router_result, receiver_result, mark_result, lent_by_c};

// A router without a ledger.
#[unsafe(no_mangle)]
pub extern "C" fn qs_router(packet: &mut [u8], ceiling: u32, fresh_nonce: u32) -> u32
    ensures result { result ≡ router_result (done (routed (length packet.old) ceiling fresh_nonce packet.old)) }
    ensures packet { packet.new ≡ leaves packet.old (routed (length packet.old) ceiling fresh_nonce packet.old) }
{
    gateway::qs_router(packet, ceiling, fresh_nonce)
}

// A router with a ledger, whose row and stored tick the caller keeps, as he does its allowance. The tick is stored
// as the router left it, which is as it was where the ledger was not asked or the call was refused.
#[unsafe(no_mangle)]
pub extern "C" fn qs_router_ledger(
    packet: &mut [u8],
    ceiling: u32,
    fresh_nonce: u32,
    row: &mut [u64],
    tick: &mut u64,
    allowance: u64,
    present: u64,
) -> u32
    ensures result { result ≡ router_result (ledger_router ceiling fresh_nonce present (lent_by_c packet.old row.old tick.old allowance)).said }
    ensures left { lent_by_c packet.new row.new tick.new allowance ≡ (ledger_router ceiling fresh_nonce present (lent_by_c packet.old row.old tick.old allowance)).left }
{
    gateway::qs_router_ledger(packet, ceiling, fresh_nonce, row, tick, allowance, present)
}

// A silent router.
#[unsafe(no_mangle)]
pub extern "C" fn qs_silent_router(packet: &mut [u8]) -> u32
    ensures result { result ≡ router_result (done (silently_routed (length packet.old) packet.old)) }
    ensures packet { packet.new ≡ leaves packet.old (silently_routed (length packet.old) packet.old) }
{
    gateway::qs_silent_router(packet)
}

// A receiver, with room for its response.
#[unsafe(no_mangle)]
pub extern "C" fn qs_receiver(packet: &[u8], ceiling: u32, response: &mut [u8]) -> u32
    ensures result { result ≡ receiver_result (reaction_in (received (length packet.now) ceiling (length response.old) packet.now)) }
    ensures buffer { response.new ≡ response_after response.old (received (length packet.now) ceiling (length response.old) packet.now) }
{
    gateway::qs_receiver(packet, ceiling, response)
}

// ECN marking.
#[unsafe(no_mangle)]
pub extern "C" fn qs_mark(packet: &mut [u8]) -> u32
    ensures result { result ≡ mark_result (mark_reply packet.old) }
    ensures packet { packet.new ≡ marked_packet packet.old }
{
    gateway::qs_mark(packet)
}
