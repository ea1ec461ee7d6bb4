// A path told by records in bytes, and the one line that says what comes of it: `rate N`, `lost`, `unanswered`, `none R`,
// or `bad AT`. The program qspath is this function between a read and a write.
#![tactic(auto)]

ghost use Rattle.std.specs.Prelude.{true, [], ◌∷◌, ◌++◌, ◌≡◌, ◌+◌, ◌*◌, ◌≤◌, ◌<◌, length, drop};
ghost use Rattle.path_rules.specs.Hops.Rows.{most_routers};
ghost use Rattle.hops.specs.Replies.{verdict_told, verdict_reply_told};
ghost use Rattle.path_rules.specs.Path.Demands.{header_with};
ghost use Rattle.path_rules.specs.Plan.Records.{starts_request, starts_receiver, hops_of, plan_of};
ghost use Rattle.path_rules.specs.Plan.Lines.{decimal, numbered, verdict_line, bad_line, verdict_for, line_of};
ghost use Rattle.plan.specs.Parts.{run_said};

use arrayvec::ArrayString;
use asking::ask;
use connection::fresh_record;
use hops::{Verdict, nonce_of, survey};
use ipv4::write_checksum;
use path::{RTT, SSTHRESH, TRANSPORT, WINDOW, run};
use rates::TOP_CODE;
use refusals::{Refusal, in_range};
use sender_rules::Wish;

// Room for the longest line: `unanswered` and the line's end are eleven bytes.
pub const LONGEST_LINE: usize = 16;

// ---- the line

// Puts one digit behind a text.
fn push_digit(text: &mut ArrayString<LONGEST_LINE>, digit: u32)
    requires { (length text.old.bytes < 16) × (digit < 10) }
    ensures { text.new.bytes ≡ text.old.bytes ++ (48 + digit) ∷ [] }
{
    text.push((b'0' + digit as u8) as char);
}

// Puts a number behind a text, in decimal: its last four digits, if it has more. Digit by digit and not by `write!`: that is
// the definition `decimal`, and the edit `hundred_in_two_digits` holds the tests.
#[tactic(auto, using(crate::proofs::TextLaws::one_digit, crate::proofs::TextLaws::four_digits))]
fn push_number(text: &mut ArrayString<LONGEST_LINE>, n: u32)
    requires { length text.old.bytes ≤ 12 }
    ensures number { text.new.bytes ≡ text.old.bytes ++ decimal n }
    ensures len { length text.new.bytes ≤ length text.old.bytes + 4 }
{
    if n < 10 {
        push_digit(text, n);
        return;
    }
    if n < 100 {
        push_digit(text, n / 10);
        push_digit(text, n % 10);
        return;
    }
    if n < 1000 {
        push_digit(text, n / 100);
        push_digit(text, n / 10 % 10);
        push_digit(text, n % 10);
        return;
    }
    push_digit(text, n / 1000 % 10);
    push_digit(text, n / 100 % 10);
    push_digit(text, n / 10 % 10);
    push_digit(text, n % 10);
}

// A word, a number and the end of the line.
#[tactic(auto, using(crate::proofs::TextLaws::in_front))]
fn numbered(word: &str, n: u32) -> ArrayString<LONGEST_LINE>
    requires { length word.now ≤ 11 }
    ensures { result.bytes ≡ numbered word.now n }
{
    let mut line = ArrayString::new();
    line.push_str(word);
    push_number(&mut line, n);
    line.push('\n');
    line
}

// The line of a verdict.
#[tactic(auto, unfolding(path_rules::specs::Plan::Lines::verdict_line))]
fn verdict_line(verdict: Verdict) -> ArrayString<LONGEST_LINE>
    ensures { result.bytes ≡ verdict_line (verdict_told verdict) }
{
    let mut line = ArrayString::new();
    match verdict {
        Verdict::Lost => line.push_str("lost\n"),
        Verdict::Unanswered => line.push_str("unanswered\n"),
        Verdict::NotAccepted(why) => return numbered("none ", why.number()),
        Verdict::Accepted(rate) => return numbered("rate ", rate),
    }
    line
}

// The line of an input that is bad at an offset.
#[tactic(auto, unfolding(path_rules::specs::Plan::Lines::bad_line))]
fn bad_line(at: usize) -> ArrayString<LONGEST_LINE>
    requires { at < 10000 }
    ensures { result.bytes ≡ bad_line at }
{
    numbered("bad ", at as u32)
}

// ---- the run

// A header of 28 bytes with one option, without its checksum.
fn header_with(ttl: u8, request: [u8; 8]) -> [u8; 28]
    ensures { result ≡ header_with ttl request }
{
    let mut header = [0; 28];
    header[..20].copy_from_slice(&[
        71, 0, 0, 28, 0, 0, 0, 0, ttl, 6, 0, 0, 10, 0, 0, 1, 10, 0, 0, 2,
    ]);
    header[20..].copy_from_slice(&request);
    header
}

// Runs the path: a fresh connection asks, its request goes out in a plain packet, and the run does the rest.
fn run_path(row: &[u8], wish: Wish, ceiling: u32) -> Result<Verdict, Refusal>
    ensures { verdict_reply_told result ≡ run_said wish ceiling row.now }
{
    let mut connection = fresh_record(WINDOW, SSTHRESH);
    let mut request = [0; 8];
    ask(&mut connection, wish, &mut request)?;
    let mut packet = header_with(wish.ttl, request);
    write_checksum(&mut packet)?;
    run(&mut connection, &mut packet, row, ceiling, TRANSPORT)
}

// ---- the input

const REQUEST: u8 = 1;

const REQUEST_LENGTH: usize = 8;

const RECEIVER: u8 = 4;

const RECEIVER_LENGTH: usize = 2;

// Whether a whole request record with numbers in range stands at the start.
#[tactic(auto, unfolding(path_rules::specs::Plan::Records::starts_request))]
fn starts_request(input: &[u8]) -> bool
    ensures { result ≡ starts_request input.now }
{
    input.len() >= REQUEST_LENGTH
        && input[0] == REQUEST
        && in_range(1, u64::from(input[1]), u64::from(TOP_CODE))
        && input[2] > 0
}

// Whether a whole receiver record with a ceiling in range stands at a place.
#[tactic(auto, unfolding(path_rules::specs::Plan::Records::starts_receiver))]
fn receiver_at(input: &[u8], at: usize) -> bool
    requires { at ≤ length input.now }
    ensures { result ≡ starts_receiver (drop at input.now) }
{
    input.len() - at >= RECEIVER_LENGTH
        && input[at] == RECEIVER
        && u32::from(input[at + 1]) <= TOP_CODE
}

// The line of an input that spells one run, whose receiver record stands at `end`. Its run is never refused, since all
// its numbers are in their ranges and the packet is the program's own.
fn good_line(input: &[u8], end: usize) -> ArrayString<LONGEST_LINE>
    requires { (starts_request input.now ≡ true) × (starts_receiver (drop end input.now) ≡ true) × (end + length (hops_of most_routers input.now).rest ≡ length input.now) × (8 ≤ end) × (end + 2 ≤ length input.now) }
    ensures { result.bytes ≡ verdict_line (verdict_for (plan_of input.now (hops_of most_routers input.now))) }
{
    let wish = Wish {
        code: u32::from(input[1]),
        ttl: input[2],
        qs_ttl: input[3],
        nonce: nonce_of(input[4], input[5], input[6], input[7]),
        rtt: RTT,
        time: 0,
    };
    let ceiling = u32::from(input[end + 1]);
    match run_path(&input[REQUEST_LENGTH..end], wish, ceiling) {
        Err(why) => verdict_line(Verdict::NotAccepted(why)),
        Ok(verdict) => verdict_line(verdict),
    }
}

// The line of an input.
#[tactic(auto, using(path_rules::proofs::Plan::InputLaws::request_parts, crate::proofs::ReadLaws::surveyed, crate::proofs::ReadLaws::end_near, crate::proofs::ReadLaws::bad_request, crate::proofs::ReadLaws::bad_receiver, crate::proofs::ReadLaws::bad_end, crate::proofs::ReadLaws::good_plan))]
pub fn line(input: &[u8]) -> ArrayString<LONGEST_LINE>
    ensures { result.bytes ≡ line_of most_routers input.now }
{
    if !starts_request(input) {
        return bad_line(0);
    }
    let end = REQUEST_LENGTH + survey(&input[REQUEST_LENGTH..]).end;
    if !receiver_at(input, end) {
        return bad_line(end);
    }
    let whole = end + RECEIVER_LENGTH;
    if whole != input.len() {
        return bad_line(whole);
    }
    good_line(input, end)
}

// The longest run has 8 bytes, 6 for each of 64 routers and 2; one byte more tells an input that is longer.
const ENOUGH: usize = 395;

// How many bytes of an input are enough: no more take part in its line.
pub fn enough() -> usize
    ensures { result ≡ 6 * most_routers + 11 }
{
    ENOUGH
}
