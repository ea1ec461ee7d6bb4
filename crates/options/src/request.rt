// A Quick-Start request in the IPv4 header: type 25, length 8, function 0 and rate code, QS TTL,
// and the nonce's word.
ghost use Rattle.std.specs.Prelude.{◌≡◌, length};
ghost use Rattle.wire_rules.specs.Options.Requests.{is_request, request_read, request_written, request_rewritten};
ghost use Rattle.wire_rules.specs.Options.Wire.{option_length};
ghost use Rattle.refusals.specs.Reply.{leaves, done};
ghost use Rattle.refusals.specs.Replies.{told};

use crate::{
    Fields, KIND, LENGTH, OPTION_LENGTH, RATE, fields_fit, fields_of, put, word_of, write_option,
};
use refusals::Refusal;
use wire_rules::Request;

// The option's type.
pub const REQUEST: u8 = 25;

// Whether eight bytes are a request: its type, its length, and function 0 in the high half of the
// rate's byte.
#[tactic(auto, unfolding(wire_rules::specs::Options::Requests::is_request))]
fn is_request(option: &[u8]) -> bool
    requires { length option.now ≡ option_length }
    ensures { result ≡ is_request option.now }
{
    option[KIND] == REQUEST && option[LENGTH] == OPTION_LENGTH as u8 && option[RATE] / 16 == 0
}

// Reads a request from a buffer of exactly eight bytes. The reserved bits are ignored.
pub fn read(option: &[u8]) -> Result<Request, Refusal>
    ensures { told result ≡ request_read option.now }
{
    if option.len() != OPTION_LENGTH {
        return Err(Refusal::OutOfRange);
    }
    if !is_request(option) {
        return Err(Refusal::NoRequest);
    }
    let fields = fields_of(option);
    Ok(Request {
        rate: fields.rate,
        qs_ttl: fields.ttl,
        nonce: fields.nonce,
    })
}

// Writes a request into a buffer of exactly eight bytes, with the reserved bits 0.
pub fn write(option: &mut [u8], request: Request) -> Result<(), Refusal>
    ensures answer { told result ≡ done (request_written option.old request.rate request.qs_ttl request.nonce) }
    ensures buffer { option.new ≡ leaves option.old (request_written option.old request.rate request.qs_ttl request.nonce) }
{
    write_option(
        option,
        REQUEST,
        Fields {
            rate: request.rate,
            ttl: request.qs_ttl,
            nonce: request.nonce,
        },
    )
}

// Writes another rate, QS TTL and nonce into a request in place. The reserved bits stay as they came.
// What is no request is not rewritten: it is refused with 4.
#[tactic(auto, using(wire_rules::proofs::Options::WireLaws::fit_facts))]
pub fn rewrite(option: &mut [u8], request: Request) -> Result<(), Refusal>
    ensures answer { told result ≡ done (request_rewritten option.old request.rate request.qs_ttl request.nonce) }
    ensures buffer { option.new ≡ leaves option.old (request_rewritten option.old request.rate request.qs_ttl request.nonce) }
{
    if !fields_fit(option.len(), request.rate, request.nonce) {
        return Err(Refusal::OutOfRange);
    }
    if !is_request(option) {
        return Err(Refusal::NoRequest);
    }
    let reserved = word_of(option) % 4;
    put(
        option,
        REQUEST,
        request.rate as u8,
        request.qs_ttl,
        request.nonce,
        reserved,
    );
    Ok(())
}
