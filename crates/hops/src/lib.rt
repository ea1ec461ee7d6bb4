// Rows of hops as bytes, their summaries, and the verdict of a summary. A row is the program's records of kinds 2 and
// 3, one after the other: a router that knows Quick-Start, with its ceiling and its fresh nonce, or a silent one.
#![tactic(auto)]

ghost use Rattle.std.specs.Prelude.{◌≡◌, ◌+◌, ◌*◌, ◌/◌, ◌≤◌, ◌<◌, length, drop};
ghost use Rattle.wire_rules.specs.Rates.Steps.{top_code};
ghost use Rattle.wire_rules.specs.Options.Wire.{word_from};
ghost use Rattle.path_rules.specs.Hops.Rows.{most_routers, front_of, length_of, hops_from};
ghost use Rattle.path_rules.specs.Hops.Summaries.{joined, summary_of, summary_in_range, summary_reply, join_reply};
ghost use Rattle.path_rules.specs.Hops.Verdicts.{verdict_in_range, verdict_of, verdict_reply};
ghost use Rattle.refusals.specs.Replies.{told};
ghost use Rattle.hops.specs.Parts.{one};
ghost use Rattle.hops.specs.Replies.{verdict_told, verdict_reply_told};

use options::word_from;
use path_rules::{Router, Summary};
use rates::{TOP_CODE, lesser};
use refusals::{Refusal, in_range};

// The most routers of a row, and of a summary.
pub const MOST_ROUTERS: u32 = 64;

// A record's kind, and the length of the whole record.
pub const KNOWING: u8 = 2;

pub const KNOWING_LENGTH: usize = 6;

pub const SILENT: u8 = 3;

pub const SILENT_LENGTH: usize = 1;

// The summary of the records of routers at the start of some bytes, as many as there are up to 64, and where they end.
#[derive(Clone, Copy, Debug, PartialEq, Eq)]
pub struct Extent {
    pub summary: Summary,
    pub end: usize,
}

#[derive(Clone, Copy, Debug, PartialEq, Eq)]
pub enum Verdict {
    // A router met an IP TTL of 0 or 1.
    Lost,
    Unanswered,
    // The sender refused the response.
    NotAccepted(Refusal),
    // The sender accepted this rate code.
    Accepted(u32),
}

// ---- rows

// The nonce in the four bytes of a word: its upper 30 bits.
pub fn nonce_of(a: u8, b: u8, c: u8, d: u8) -> u32
    ensures { result ≡ word_from a b c d / 4 }
{
    word_from(a, b, c, d) / 4
}

// The router whose record stands at a place of a row, if a whole record with its ceiling in range does.
#[tactic(auto, unfolding(path_rules::specs::Hops::Rows::front_of, path_rules::specs::Hops::Rows::is_knowing))]
pub fn router_at(row: &[u8], at: usize) -> Option<Router>
    ensures { result ≡ front_of (drop at row.now) }
{
    match row.get(at..)? {
        [SILENT, ..] => Some(Router::Silent),
        [KNOWING, ceiling, a, b, c, d, ..] if u32::from(*ceiling) <= TOP_CODE => {
            Some(Router::Knowing(u32::from(*ceiling), nonce_of(*a, *b, *c, *d)))
        }
        _ => None,
    }
}

// The length of a router's record.
#[tactic(auto, unfolding(path_rules::specs::Hops::Rows::length_of))]
pub fn length_of(router: Router) -> usize
    ensures { result ≡ length_of router }
{
    match router {
        Router::Knowing(_, _) => KNOWING_LENGTH,
        Router::Silent => SILENT_LENGTH,
    }
}

// A summary with one router more.
#[tactic(auto, unfolding(path_rules::specs::Hops::Summaries::joined, path_rules::specs::Hops::Summaries::summary_of, path_rules::specs::Hops::Summaries::silent_ones, path_rules::specs::Hops::Summaries::least_ceiling))]
fn with_router(sum: Summary, router: Router) -> Summary
    requires { (sum.routers < most_routers) × (sum.silent ≤ sum.routers) × (sum.least ≤ top_code) }
    ensures { result ≡ joined sum (one router) }
{
    match router {
        Router::Knowing(ceiling, _) => Summary {
            routers: sum.routers + 1,
            least: lesser(sum.least, ceiling),
            ..sum
        },
        Router::Silent => Summary {
            routers: sum.routers + 1,
            silent: sum.silent + 1,
            ..sum
        },
    }
}

// Sums up the records of routers at the start of some bytes, at most 64 of them.
#[tactic(auto, using(crate::proofs::SurveyLaws::begins, crate::proofs::SurveyLaws::fits_behind, crate::proofs::SurveyLaws::ends, crate::proofs::SurveyLaws::ends_full))]
pub fn survey(bytes: &[u8]) -> Extent
    ensures sum { result.summary ≡ summary_of (hops_from most_routers bytes.now).routers }
    ensures end { result.end + length (hops_from most_routers bytes.now).rest ≡ length bytes.now }
{
    let mut sum = Summary {
        routers: 0,
        silent: 0,
        least: TOP_CODE,
    };
    let mut at = 0;
    for _ in 0..MOST_ROUTERS {
        let Some(router) = router_at(bytes, at) else {
            break;
        };
        sum = with_router(sum, router);
        at += length_of(router);
    }
    Extent {
        summary: sum,
        end: at,
    }
}

// ---- summaries

// The summary of a row of hops.
pub fn summarize(row: &[u8]) -> Result<Summary, Refusal>
    ensures { told result ≡ summary_reply most_routers row.now }
{
    let found = survey(row);
    if found.end != row.len() {
        return Err(Refusal::OutOfRange);
    }
    Ok(found.summary)
}

// Whether the numbers of a summary are in their ranges.
#[tactic(auto, unfolding(path_rules::specs::Hops::Summaries::summary_in_range))]
fn summary_in_range(sum: Summary) -> bool
    ensures { result ≡ summary_in_range sum }
{
    sum.routers <= MOST_ROUTERS && sum.silent <= sum.routers && sum.least <= TOP_CODE
}

// The summary of two parts of a path together.
#[tactic(auto, unfolding(path_rules::specs::Hops::Summaries::joined, path_rules::specs::Hops::Summaries::summary_in_range))]
pub fn join(a: Summary, b: Summary) -> Result<Summary, Refusal>
    ensures { told result ≡ join_reply a b }
{
    if !summary_in_range(a) || !summary_in_range(b) || a.routers + b.routers > MOST_ROUTERS {
        return Err(Refusal::OutOfRange);
    }
    Ok(Summary {
        routers: a.routers + b.routers,
        silent: a.silent + b.silent,
        least: lesser(a.least, b.least),
    })
}

// ---- verdicts

// The verdict of a summary.
#[tactic(auto, unfolding(path_rules::specs::Hops::Verdicts::verdict_of))]
fn judge(sum: Summary, ttl: u32, code: u32, ceiling: u32) -> Verdict
    ensures { verdict_told result ≡ verdict_of sum ttl code ceiling }
{
    if ttl <= sum.routers {
        return Verdict::Lost;
    }
    let least = lesser(lesser(code, sum.least), ceiling);
    if least == 0 {
        return Verdict::Unanswered;
    }
    if sum.silent > 0 {
        return Verdict::NotAccepted(Refusal::WrongTtlDiff);
    }
    Verdict::Accepted(least)
}

// Whether the numbers that a verdict is asked with are in their ranges.
#[tactic(auto, unfolding(path_rules::specs::Hops::Verdicts::verdict_in_range, common::specs::Choice::within))]
fn verdict_in_range(ttl: u8, code: u32, ceiling: u32) -> bool
    ensures { result ≡ verdict_in_range ttl code ceiling }
{
    ttl != 0 && in_range(1, code as u64, TOP_CODE as u64) && ceiling <= TOP_CODE
}

// The verdict of a path with this summary, for a request with a starting IP TTL and the code asked, and a receiver
// with a ceiling.
pub fn verdict_of(sum: Summary, ttl: u8, code: u32, ceiling: u32) -> Result<Verdict, Refusal>
    ensures { verdict_reply_told result ≡ verdict_reply sum ttl code ceiling }
{
    if !summary_in_range(sum) || !verdict_in_range(ttl, code, ceiling) {
        return Err(Refusal::OutOfRange);
    }
    Ok(judge(sum, u32::from(ttl), code, ceiling))
}
