// Explicit Congestion Notification: the low two bits of a header's second byte are ECT, by which a sender
// says that its transport is ECN-capable, and CE, by which a router says that the packet met congestion.
ghost use Rattle.std.specs.Prelude.{◌≡◌};
ghost use Rattle.refusals.specs.Replies.{told};
ghost use Rattle.wire_rules.specs.Ipv4.Marks.{mark_reply, marked_packet};

use crate::{check_header, seal};
use refusals::Refusal;
use wire_rules::Marking;

// The byte that holds both bits: CE is its lowest, ECT the one above it.
const ECN_BYTE: usize = 1;

// Marks a packet as one that met congestion: sets CE and writes the checksum anew if the transport is
// ECN-capable (ECT is set); if not, the packet stays as it is and is to be dropped.
#[tactic(auto, using(wire_rules::proofs::Ipv4::HeaderLaws::good, crate::proofs::HeaderLaws::stored_least, crate::proofs::HeaderLaws::stored_inside, wire_rules::proofs::Ipv4::PacketLaws::mark_refused, wire_rules::proofs::Ipv4::PacketLaws::mark_drop, wire_rules::proofs::Ipv4::PacketLaws::mark_marked), unfolding(wire_rules::specs::Ipv4::Marks::with_ce))]
pub fn mark(packet: &mut [u8]) -> Result<Marking, Refusal>
    ensures answer { told result ≡ mark_reply packet.old }
    ensures packet { packet.new ≡ marked_packet packet.old }
{
    check_header(packet)?;
    // By division, as the definition `with_ce` and the edit `wrong_bit_marked` have it.
    let byte = packet[ECN_BYTE];
    if byte / 2 % 2 != 1 {
        return Ok(Marking::Dropped);
    }
    packet[ECN_BYTE] = byte / 2 * 2 + 1;
    seal(packet);
    Ok(Marking::Marked)
}
