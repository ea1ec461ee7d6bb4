// A Quick-Start response in the TCP header: kind 27, length 8, rate code under four reserved bits,
// TTL Diff, and the nonce's word.
ghost use Rattle.std.specs.Prelude.{◌≡◌, length};
ghost use Rattle.wire_rules.specs.Options.Responses.{ttl_diff, is_response, response_read, response_written};
ghost use Rattle.wire_rules.specs.Options.Wire.{option_length};
ghost use Rattle.refusals.specs.Reply.{leaves, done};
ghost use Rattle.refusals.specs.Replies.{told};

use crate::{Fields, KIND, LENGTH, OPTION_LENGTH, fields_of, write_option};
use refusals::Refusal;
use wire_rules::Response;

// The option's kind.
const RESPONSE: u8 = 27;

// The TTL Diff of an IP TTL and a QS TTL: the first less the second, modulo 256. Routers that know Quick-Start lower both
// and leave it as it was.
#[tactic(auto, unfolding(wire_rules::specs::Options::Responses::ttl_diff))]
pub fn ttl_diff(ttl: u8, qs_ttl: u8) -> u8
    ensures { result ≡ ttl_diff ttl qs_ttl }
{
    ttl.wrapping_sub(qs_ttl)
}

// Whether eight bytes are a response: its kind and its length.
#[tactic(auto, unfolding(wire_rules::specs::Options::Responses::is_response))]
fn is_response(option: &[u8]) -> bool
    requires { length option.now ≡ option_length }
    ensures { result ≡ is_response option.now }
{
    option[KIND] == RESPONSE && option[LENGTH] == OPTION_LENGTH as u8
}

// Reads a response from a buffer of exactly eight bytes. The reserved bits are ignored.
pub fn read(option: &[u8]) -> Result<Response, Refusal>
    ensures { told result ≡ response_read option.now }
{
    if option.len() != OPTION_LENGTH {
        return Err(Refusal::OutOfRange);
    }
    if !is_response(option) {
        return Err(Refusal::NoResponse);
    }
    let fields = fields_of(option);
    Ok(Response {
        rate: fields.rate,
        ttl_diff: fields.ttl,
        nonce: fields.nonce,
    })
}

// Writes a response into a buffer of exactly eight bytes, with the reserved bits 0.
pub fn write(option: &mut [u8], response: Response) -> Result<(), Refusal>
    ensures answer { told result ≡ done (response_written option.old response.rate response.ttl_diff response.nonce) }
    ensures buffer { option.new ≡ leaves option.old (response_written option.old response.rate response.ttl_diff response.nonce) }
{
    write_option(
        option,
        RESPONSE,
        Fields {
            rate: response.rate,
            ttl: response.ttl_diff,
            nonce: response.nonce,
        },
    )
}
