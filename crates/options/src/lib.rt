// The eight bytes of a Quick-Start request, an option of the IPv4 header, and of a Quick-Start
// response, an option of the TCP header.
#![tactic(auto)]

ghost use Rattle.std.specs.Prelude.{◌≡◌, ◌<◌, length, slice_index};
ghost use Rattle.wire_rules.specs.Options.Wire.{option_length, nonce_limit, word_from, word_of, option_bytes, option_written, fields_fit, rate_in, ttl_in, nonce_in};
ghost use Rattle.refusals.specs.Reply.{leaves, done};
ghost use Rattle.refusals.specs.Replies.{told};

use rates::TOP_CODE;
use refusals::Refusal;

// Two modules and no generic one: their tests, their refusals and a field's name differ, and what they share stands here.
pub mod request;
pub mod response;

// The length of both options, which is their length byte too.
pub const OPTION_LENGTH: usize = 8;
// 2^30: a nonce has 30 bits.
// No type of its own: nonces come from packets and callers as numbers, and each call tests them (7).
pub const NONCE_LIMIT: u32 = 1_073_741_824;

// Where the fields stand. The nonce's word takes the last four bytes, high byte first.
const KIND: usize = 0;

const LENGTH: usize = 1;

const RATE: usize = 2;

const TTL: usize = 3;

const WORD: usize = 4;

// Whether an option with this rate code and nonce can be written into a buffer of this length.
#[tactic(auto, unfolding(wire_rules::specs::Options::Wire::fields_fit))]
fn fields_fit(len: usize, code: u32, nonce: u32) -> bool
    ensures { result ≡ fields_fit len code nonce }
{
    len == OPTION_LENGTH && code <= TOP_CODE && nonce < NONCE_LIMIT
}

// The word of four bytes, the highest first.
pub fn word_from(a: u8, b: u8, c: u8, d: u8) -> u32
    ensures { result ≡ word_from a b c d }
{
    u32::from_be_bytes([a, b, c, d])
}

// The word of the last four bytes: the nonce above two reserved bits.
#[tactic(auto, unfolding(wire_rules::specs::Options::Wire::word_of))]
fn word_of(option: &[u8]) -> u32
    requires { length option.now ≡ option_length }
    ensures { result ≡ word_of option.now }
{
    word_from(
        option[WORD],
        option[WORD + 1],
        option[WORD + 2],
        option[WORD + 3],
    )
}

// The three fields that a request and a response share the places of. They are turned into a Request or a Response where
// they are read, and out of one where it is written: four impls of From would be no shorter.
#[derive(Clone, Copy)]
struct Fields {
    rate: u32,
    ttl: u8,
    nonce: u32,
}

fn fields_of(option: &[u8]) -> Fields
    requires { length option.now ≡ option_length }
    ensures { (result.rate ≡ rate_in option.now) × (result.ttl ≡ ttl_in option.now) × (result.nonce ≡ nonce_in option.now) }
{
    Fields {
        rate: (option[RATE] % 16) as u32,
        ttl: option[TTL],
        nonce: word_of(option) / 4,
    }
}

// Writes all eight bytes, one by one: copied from an array they cost a router 6 ns more a packet (docs/PERFORMANCE.md).
#[tactic(auto, unfolding(wire_rules::specs::Options::Wire::option_bytes))]
fn put(option: &mut [u8], kind: u8, rate: u8, ttl: u8, nonce: u32, reserved: u32)
    requires { (length option.old ≡ option_length) × (nonce < nonce_limit) × (reserved < 4) }
    ensures { option.new ≡ option_bytes kind rate ttl nonce reserved }
{
    let [a, b, c, d] = (nonce * 4 + reserved).to_be_bytes();
    option[KIND] = kind;
    option[LENGTH] = OPTION_LENGTH as u8;
    option[RATE] = rate;
    option[TTL] = ttl;
    option[WORD] = a;
    option[WORD + 1] = b;
    option[WORD + 2] = c;
    option[WORD + 3] = d;
}

// Writes an option anew into a buffer of exactly eight bytes, with the reserved bits 0.
#[tactic(auto, using(wire_rules::proofs::Options::WireLaws::fit_facts))]
fn write_option(option: &mut [u8], kind: u8, fields: Fields) -> Result<(), Refusal>
    ensures answer { told result ≡ done (option_written kind option.old fields.rate fields.ttl fields.nonce) }
    ensures buffer { option.new ≡ leaves option.old (option_written kind option.old fields.rate fields.ttl fields.nonce) }
{
    if !fields_fit(option.len(), fields.rate, fields.nonce) {
        return Err(Refusal::OutOfRange);
    }
    put(option, kind, fields.rate as u8, fields.ttl, fields.nonce, 0);
    Ok(())
}
