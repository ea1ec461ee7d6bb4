// What a router and a receiver read of a packet before they decide: its IP TTL and, where it has one, its
// request with the place of the option.
#![tactic(auto)]

ghost use Rattle.std.specs.Prelude.{◌≡◌, ◌+◌, ◌≤◌, length, IfSome};
ghost use Rattle.wire_rules.specs.Options.Wire.{option_length};
ghost use Rattle.wire_rules.specs.Ipv4.Views.{request_at};
ghost use Rattle.gateway_rules.specs.Inspect.Sights.{asking_at, sighted};
ghost use Rattle.refusals.specs.Replies.{told};

use gateway_rules::Seen;
use ipv4::{ip_ttl, locate};
use options::{OPTION_LENGTH, request};
use refusals::Refusal;
use wire_rules::Request;

// What stands at the place of a packet's option: a request, or nothing that asks.
#[tactic(auto, using(crate::proofs::SightLaws::read_other, crate::proofs::SightLaws::read_request))]
fn read_at(packet: &[u8], place: Option<usize>) -> Option<(usize, Request)>
    requires { IfSome place (λ at. at + option_length ≤ length packet.now) }
    ensures { result ≡ asking_at place (request_at place packet.now) }
{
    let at = place?;
    let request = request::read(&packet[at..at + OPTION_LENGTH]).ok()?;
    Some((at, request))
}

// Looks at a packet: its header is checked and its options are walked first.
#[tactic(auto, using(crate::proofs::SightLaws::sight_refused, crate::proofs::SightLaws::no_refusal, crate::proofs::SightLaws::sight_of))]
pub fn look(packet: &[u8]) -> Result<Seen, Refusal>
    ensures { told result ≡ sighted (length packet.now) packet.now }
{
    let place = locate(packet)?;
    let ttl = ip_ttl(packet)?;
    let asking = read_at(packet, place);
    Ok(Seen { ttl, asking })
}
