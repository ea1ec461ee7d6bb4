// The functions exported to C for a path lent as a row of hop records: each calls the function of its name in the crate
// `rows`, and has its contract. They stand twice for the C interface alone. include/quickstart_path.h tells a caller in C
// what each does.
#![tactic(auto)]

ghost use Rattle.std.specs.Prelude.{◌≡◌};
ghost use Rattle.refusals.specs.Reply.{leaves, done};
ghost use Rattle.path_rules.specs.Hops.Rows.{most_routers};
ghost use Rattle.path_rules.specs.Path.OwnSender.{own_transport};
ghost use Rattle.path_rules.specs.Rows.Rows.{hops_summary, hops_call};
ghost use Rattle.path_rules.specs.Rows.Results.{summary_lent, summary_result, open_for, verdict_result};

use path_rules::Hop;

// The summary of a row of hops, into a buffer of three numbers.
#[unsafe(no_mangle)]
pub extern "C" fn qs_path_summary(row: &[Hop], summary: &mut [u32]) -> u32
    ensures result { result ≡ summary_result (done (summary_lent summary.old (hops_summary most_routers row.now))) }
    ensures summary { summary.new ≡ leaves summary.old (summary_lent summary.old (hops_summary most_routers row.now)) }
{
    rows::qs_path_summary(row, summary)
}

// The run of a path over a row of hops, for a request that is open, by its code, starting TTL Diff and nonce, and a packet
// with a request, which need not be that one: the sender judges what comes back.
#[unsafe(no_mangle)]
pub extern "C" fn qs_path_run(
    packet: &mut [u8],
    row: &[Hop],
    ceiling: u32,
    code: u32,
    ttl_diff: u8,
    nonce: u32,
) -> u32
    ensures result { result ≡ verdict_result (hops_call most_routers (open_for code ttl_diff nonce) packet.old row.now ceiling own_transport).said }
    ensures packet { packet.new ≡ (hops_call most_routers (open_for code ttl_diff nonce) packet.old row.now ceiling own_transport).left.packet }
{
    rows::qs_path_run(packet, row, ceiling, code, ttl_diff, nonce)
}
