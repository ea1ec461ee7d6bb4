// The walk of an IPv4 header's options area: where its Quick-Start option stands, if it has one.
#![tactic(auto)]

ghost use Rattle.std.specs.Prelude.{◌≡◌, ◌<◌, length};
ghost use Rattle.wire_rules.specs.Walk.Walks.{look, walk};
ghost use Rattle.walk.specs.Parts.{next_told};
ghost use Rattle.refusals.specs.Replies.{told};

use options::OPTION_LENGTH;
use options::request::REQUEST;
use refusals::Refusal;

// The two options of a single byte: the end of the area, and one that is only there to fill it.
const END: u8 = 0;

const NO_OPERATION: u8 = 1;

// The least length byte: it counts the type and itself.
const LEAST_LENGTH: usize = 2;

// An option that the walk goes past: what has been found up to its end, and its length.
#[derive(Clone, Copy)]
struct Past {
    place: Option<usize>,
    length: usize,
}

// Looks at one option: `left` is all that is left of the area, from the option's type on, and `at` is its
// offset. The walk goes past it, or ends with it. A bad length is tested before anything that is special to Quick-Start.
#[tactic(auto, using(wire_rules::proofs::Walk::WalkLaws::reads_bad, wire_rules::proofs::Walk::WalkLaws::reads_other, wire_rules::proofs::Walk::WalkLaws::reads_first, wire_rules::proofs::Walk::WalkLaws::reads_second, wire_rules::proofs::Walk::WalkLaws::reads_wrong, wire_rules::proofs::Walk::WalkLaws::in_fit, wire_rules::proofs::Walk::WalkLaws::no_fit), unfolding(wire_rules::specs::Walk::Walks::look))]
fn look(left: &[u8], at: usize, place: Option<usize>) -> Result<Option<Past>, Refusal>
    requires { 0 < length left.now }
    ensures { next_told result ≡ look place at left.now }
{
    let kind = left[0];
    if kind == END {
        return Ok(None);
    }
    if kind == NO_OPERATION {
        return Ok(Some(Past { place, length: 1 }));
    }
    if left.len() < LEAST_LENGTH {
        return Err(Refusal::OptionLength);
    }
    let length = left[1] as usize;
    if length < LEAST_LENGTH || length > left.len() {
        return Err(Refusal::OptionLength);
    }
    if kind != REQUEST {
        return Ok(Some(Past { place, length }));
    }
    if length != OPTION_LENGTH || place.is_some() {
        return Err(Refusal::QuickStartOption);
    }
    Ok(Some(Past {
        place: Some(at),
        length,
    }))
}

// Walks an options area from its first byte to its end, a fault or its last byte.
#[tactic(auto, using(crate::proofs::WalkLaws::at_last, crate::proofs::WalkLaws::at_end, crate::proofs::WalkLaws::at_fault, crate::proofs::WalkLaws::at_past, common::proofs::Lists::take_rest))]
pub fn find(area: &[u8]) -> Result<Option<usize>, Refusal>
    ensures { told result ≡ walk area.now }
{
    let mut place = None;
    let mut at = 0;
    // An option says itself where the next one begins, so there is nothing to iterate over; and document 01 wants a loop
    // that breaks with its finding, or leaves by its label at a fault.
    'walk: loop {
        if at >= area.len() {
            break Ok(place);
        }
        match look(&area[at..], at, place) {
            Ok(None) => break Ok(place),
            Ok(Some(past)) => {
                place = past.place;
                at += past.length;
            }
            Err(why) => break 'walk Err(why),
        }
    }
}
