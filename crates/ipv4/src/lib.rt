// The IPv4 header of a packet: its check and its checksum, the place of its Quick-Start option, and
// passing it on. Bytes behind the header are neither read nor changed.
#![tactic(auto)]

ghost use Rattle.std.specs.Prelude.{◌≡◌, ◌+◌, ◌%◌, ◌<◌, ◌≤◌, length};
ghost use Rattle.refusals.specs.Reply.{leaves, done};
ghost use Rattle.refusals.specs.Replies.{told};
ghost use Rattle.wire_rules.specs.Ipv4.Headers.{word_at, header_length};
ghost use Rattle.wire_rules.specs.Ipv4.Checksums.{ones_sum, with_checksum, sealed};
ghost use Rattle.wire_rules.specs.Ipv4.Checks.{well_formed, header_checked};
ghost use Rattle.wire_rules.specs.Ipv4.Packets.{ttl_reply, located, sealed_reply, passed_on, forwarded};

use refusals::Refusal;

pub mod ecn;

// Where the fields stand.
const VERSION_AND_LENGTH: usize = 0;

const TOTAL_LENGTH: usize = 2;

const TTL: usize = 8;

const CHECKSUM: usize = 10;

const OPTIONS: usize = 20;

// The length of a header without options.
const LEAST_HEADER: usize = 20;

const VERSION: u8 = 4;

// The least length field: it counts words of 32 bits.
const LEAST_WORDS: u8 = 5;

// What a header's 16-bit words sum to, its checksum among them.
const ALL_ONES: u16 = u16::MAX;

// 2^16: what does not fit 16 bits any more.
const CARRY: u32 = 65_536;

// Two bytes of a packet as a number, high byte first.
fn word_at(packet: &[u8], at: usize) -> u16
    requires { at + 1 < length packet.now }
    ensures { result ≡ word_at packet.now at }
{
    u16::from_be_bytes([packet[at], packet[at + 1]])
}

// The header's length in bytes, as its first byte states it.
#[tactic(auto, unfolding(wire_rules::specs::Ipv4::Headers::header_length))]
fn header_length(packet: &[u8]) -> usize
    requires { 0 < length packet.now }
    ensures value { result ≡ header_length packet.now }
    ensures whole_words { result % 2 ≡ 0 }
    ensures short { result ≤ 60 }
{
    (packet[VERSION_AND_LENGTH] % 16) as usize * 4
}

// Whether slice, version, header's length and total length are right.
#[tactic(auto, using(crate::proofs::HeaderLaws::short_total, crate::proofs::HeaderLaws::by_total), unfolding(wire_rules::specs::Ipv4::Checks::well_formed, common::specs::Choice::within))]
fn well_formed(packet: &[u8]) -> bool
    ensures { result ≡ well_formed (length packet.now) packet.now }
{
    // First, since the bytes of the total length must be there to be read.
    if packet.len() < LEAST_HEADER {
        return false;
    }
    let first = packet[VERSION_AND_LENGTH];
    let total = word_at(packet, TOTAL_LENGTH) as usize;
    first / 16 == VERSION
        && first % 16 >= LEAST_WORDS
        && total >= header_length(packet)
        && total <= packet.len()
}

// The one's complement sum of a header's 16-bit words: their sum, whose carries out of the low 16 bits
// are added in below. A header has at most 30 words, so twice is enough.
#[tactic(auto, using(wire_rules::proofs::Ipv4::ChecksumLaws::sum_folded, wire_rules::proofs::Ipv4::ChecksumLaws::folded_limit, crate::proofs::ChecksumLaws::twice, crate::proofs::ChecksumLaws::total_step, crate::proofs::ChecksumLaws::total_end))]
fn header_sum(header: &[u8]) -> u16
    requires whole_words { length header.now % 2 ≡ 0 }
    requires short { length header.now ≤ 60 }
    ensures { result ≡ ones_sum header.now }
{
    let mut sum = 0;
    for at in (0..header.len()).step_by(2) {
        sum += word_at(header, at) as u32;
    }
    let folded = sum % CARRY + sum / CARRY;
    (folded % CARRY + folded / CARRY) as u16
}

// Writes the checksum's field.
#[tactic(auto, unfolding(wire_rules::specs::Ipv4::Checksums::with_checksum))]
fn put_checksum(packet: &mut [u8], word: u16)
    requires { 12 ≤ length packet.old }
    ensures { packet.new ≡ with_checksum word packet.old }
{
    let [high, low] = word.to_be_bytes();
    packet[CHECKSUM] = high;
    packet[CHECKSUM + 1] = low;
}

// Writes the checksum anew: the complement of the header's sum with the checksum's own field zero.
#[tactic(auto, using(wire_rules::proofs::Ipv4::ChecksumLaws::length_field_lem, wire_rules::proofs::Ipv4::ChecksumLaws::in_steps, crate::proofs::HeaderLaws::part_length))]
fn seal(packet: &mut [u8])
    requires checksum_inside { 12 ≤ header_length packet.old }
    requires header_inside { header_length packet.old ≤ length packet.old }
    ensures { packet.new ≡ sealed packet.old }
{
    let h = header_length(packet);
    put_checksum(packet, 0);
    let sum = header_sum(&packet[..h]);
    put_checksum(packet, ALL_ONES - sum);
}

// Checks the header of a packet, and says how long it is.
#[tactic(auto, using(wire_rules::proofs::Ipv4::HeaderLaws::form, crate::proofs::HeaderLaws::part_length))]
pub fn check_header(packet: &[u8]) -> Result<usize, Refusal>
    ensures { told result ≡ header_checked (length packet.now) packet.now }
{
    if !well_formed(packet) {
        return Err(Refusal::Header);
    }
    let h = header_length(packet);
    if header_sum(&packet[..h]) != ALL_ONES {
        return Err(Refusal::Checksum);
    }
    Ok(h)
}

// Where the packet's Quick-Start option stands, by the place of its type in the packet. The options
// area is handed on to the walk as a part of the packet.
#[tactic(auto, using(wire_rules::proofs::Ipv4::HeaderLaws::good, crate::proofs::PacketLaws::nowhere, crate::proofs::PacketLaws::located_at, crate::proofs::PacketLaws::place_small))]
pub fn locate(packet: &[u8]) -> Result<Option<usize>, Refusal>
    ensures { told result ≡ located (length packet.now) packet.now }
{
    let h = check_header(packet)?;
    let Some(offset) = walk::find(&packet[OPTIONS..h])? else {
        return Ok(None);
    };
    Ok(Some(OPTIONS + offset))
}

// The IP TTL of a packet whose header is well formed.
#[tactic(auto, using(wire_rules::proofs::Ipv4::HeaderLaws::form))]
pub fn ip_ttl(packet: &[u8]) -> Result<u8, Refusal>
    ensures { told result ≡ ttl_reply (length packet.now) packet.now }
{
    if well_formed(packet) {
        Ok(packet[TTL])
    } else {
        Err(Refusal::Header)
    }
}

// Lowers the IP TTL by one and writes the checksum anew. The checksum as it came is not tested: this is
// for a router that has rewritten the option, and so made it stale.
#[tactic(auto, using(wire_rules::proofs::Ipv4::HeaderLaws::form, crate::proofs::HeaderLaws::stored_least, crate::proofs::HeaderLaws::stored_inside))]
pub fn pass_on(packet: &mut [u8]) -> Result<(), Refusal>
    ensures answer { told result ≡ done (passed_on (length packet.old) packet.old) }
    ensures packet { packet.new ≡ leaves packet.old (passed_on (length packet.old) packet.old) }
{
    if !well_formed(packet) {
        return Err(Refusal::Header);
    }
    let ttl = packet[TTL];
    if ttl <= 1 {
        return Err(Refusal::TtlExpired);
    }
    packet[TTL] = ttl - 1;
    seal(packet);
    Ok(())
}

// Writes the checksum of a packet anew, for a sender that has made its header.
#[tactic(auto, using(wire_rules::proofs::Ipv4::HeaderLaws::form, crate::proofs::HeaderLaws::checksum_inside))]
pub fn write_checksum(packet: &mut [u8]) -> Result<(), Refusal>
    ensures answer { told result ≡ done (sealed_reply (length packet.old) packet.old) }
    ensures packet { packet.new ≡ leaves packet.old (sealed_reply (length packet.old) packet.old) }
{
    if !well_formed(packet) {
        return Err(Refusal::Header);
    }
    seal(packet);
    Ok(())
}

// Passes on a packet that nobody has rewritten: its checksum is tested first.
#[tactic(auto, using(crate::proofs::PacketLaws::forward_refused, crate::proofs::PacketLaws::forward_passed))]
pub fn forward(packet: &mut [u8]) -> Result<(), Refusal>
    ensures answer { told result ≡ done (forwarded (length packet.old) packet.old) }
    ensures packet { packet.new ≡ leaves packet.old (forwarded (length packet.old) packet.old) }
{
    check_header(packet)?;
    pass_on(packet)
}
