// The ledger of a link, document 01's account of what a router approved on the link. The link lends
// a row of slots and the ledger's record, with the stored tick and the allowance. A tick is a count
// of the caller's clock; the slot of a tick is the tick modulo the row's length, and holds the sum
// of the rates approved at that tick. So with S slots the row's total is what was approved at the
// last S ticks, and that never passes the allowance.
#![tactic(auto)]

ghost use Rattle.std.specs.Prelude.{◌≡◌, ◌+◌, ◌-◌, ◌≤◌, ◌<◌, Some, None, leb, length, replicate};
ghost use Rattle.common.specs.Choice.{pick};
ghost use Rattle.refusals.specs.Replies.{told};
ghost use Rattle.wire_rules.specs.Rates.Steps.{top_code, rate_of, greatest_up_to};
ghost use Rattle.gateway_rules.specs.Ledgers.Rows.{total, moved_on, charged};
ghost use Rattle.gateway_rules.specs.Ledgers.Calls.{most_allowance, lent, link_in_range, grant_of};
ghost use Rattle.gateway_rules.specs.Ledgers.History.{ledger_calls};

use gateway_rules::Ledger;
use rates::{TOP_CODE, rate_of, round_down};
use refusals::{Refusal, in_range};

pub const MOST_SLOTS: usize = 64;

// The greatest allowance, in bits a second: 2^40.
pub const MOST_ALLOWANCE: u64 = 1_099_511_627_776;

// Whether a row's length and an allowance are in their ranges.
#[tactic(auto, unfolding(gateway_rules::specs::Ledgers::Calls::link_in_range))]
pub fn link_in_range(slots: usize, allowance: u64) -> bool
    ensures { result ≡ link_in_range slots allowance }
{
    in_range(1, slots as u64, MOST_SLOTS as u64) && allowance <= MOST_ALLOWANCE
}

// What the row's total leaves of an allowance, or nothing where the total is above it. Slots may
// hold any numbers; what is left only falls, so nothing can wrap.
#[tactic(auto, using(crate::proofs::RowLaws::total_from, crate::proofs::RowLaws::total_end))]
fn left_of(row: &[u64], allowance: u64) -> Option<u64>
    ensures { result ≡ pick (leb (total row.now) allowance) (Some (allowance - total row.now)) None }
{
    let mut left = allowance;
    for &slot in row {
        left = left.checked_sub(slot)?;
    }
    Some(left)
}

// Zeroes the slots of the ticks after `old` up to `tick`. Once there are as many ticks as slots
// these are all slots, so no slot is stored to twice.
#[tactic(auto, unfolding(gateway_rules::specs::Ledgers::Rows::moved_on, gateway_rules::specs::Ledgers::Rows::passed), using(crate::proofs::RowLaws::passed_whole, crate::proofs::RowLaws::passed_next))]
fn clear_passed(row: &mut [u64], old: u64, tick: u64)
    requires { (0 < length row.old) × (old ≤ tick) }
    ensures { row.new ≡ moved_on old tick row.old }
{
    let slots = row.len() as u64;
    if tick - old >= slots {
        row.fill(0);
        return;
    }
    for t in old..tick {
        row[((t + 1) % slots) as usize] = 0;
    }
}

// Adds a rate to the slot of a tick.
#[tactic(auto, unfolding(gateway_rules::specs::Ledgers::Rows::charged), using(gateway_rules::proofs::Ledgers::RowLaws::slot_lt, crate::proofs::RowLaws::slot_most))]
fn charge(row: &mut [u64], tick: u64, rate: u64)
    requires { (0 < length row.old) × (total row.old + rate ≤ most_allowance) }
    ensures { row.new ≡ charged tick rate row.old }
{
    let slot = (tick % (row.len() as u64)) as usize;
    row[slot] += rate;
}

// The bits a second of a code that is not above the highest, which is never refused.
fn bits_of(code: u32) -> u64
    requires { code ≤ top_code }
    ensures { result ≡ rate_of code }
{
    rate_of(code).unwrap_or(0)
}

// The greatest code up to `asked` whose rate is at most `left`.
#[tactic(auto, using(wire_rules::proofs::Rates::StepLaws::limited))]
fn greatest_code(asked: u32, left: u64) -> u32
    requires { asked ≤ top_code }
    ensures { result ≡ greatest_up_to asked left }
{
    round_down(left).min(asked)
}

// Sets a row up: every slot is zeroed, whatever it held, and the ledger starts at `tick`.
pub fn set_up(row: &mut [u64], tick: u64, allowance: u64) -> Result<Ledger, Refusal>
    ensures answer { told result ≡ (ledger_calls.set_up row.old tick allowance).said }
    ensures row { row.new ≡ (ledger_calls.set_up row.old tick allowance).left }
{
    if !link_in_range(row.len(), allowance) {
        return Err(Refusal::OutOfRange);
    }
    row.fill(0);
    Ok(Ledger { tick, allowance })
}

// Moves on to a tick: zeroes the slots of the ticks after the stored one up to it. The same tick
// changes nothing, and a tick before the stored one is refused, as is a row whose total is above
// the allowance.
#[tactic(auto, using(crate::proofs::CallLaws::slots_low))]
pub fn move_on(row: &mut [u64], ledger: &mut Ledger, tick: u64) -> Result<(), Refusal>
    ensures answer { told result ≡ (ledger_calls.move (lent row.old ledger.old) tick).said }
    ensures link { lent row.new ledger.new ≡ (ledger_calls.move (lent row.old ledger.old) tick).left }
{
    if !link_in_range(row.len(), ledger.allowance) {
        return Err(Refusal::OutOfRange);
    }
    if left_of(row, ledger.allowance).is_none() {
        return Err(Refusal::OverAllowance);
    }
    if tick < ledger.tick {
        return Err(Refusal::TimeBackwards);
    }
    clear_passed(row, ledger.tick, tick);
    ledger.tick = tick;
    Ok(())
}

// Grants the greatest code up to `asked` that the row leaves room for, and adds its rate to the
// slot of the stored tick.
#[tactic(auto, unfolding(gateway_rules::specs::Ledgers::Calls::grant_of), using(crate::proofs::CallLaws::greatest_at_most, crate::proofs::CallLaws::greatest_fits))]
fn approve(row: &mut [u64], ledger: Ledger, asked: u32) -> u32
    requires { (0 < length row.old) × (total row.old ≤ ledger.allowance) × (ledger.allowance ≤ most_allowance) × (asked ≤ top_code) }
    ensures code { result ≡ grant_of (lent row.old ledger) asked }
    ensures row { row.new ≡ charged ledger.tick (rate_of (grant_of (lent row.old ledger) asked)) row.old }
{
    let left = left_of(row, ledger.allowance).unwrap_or(0);
    let code = greatest_code(asked, left);
    charge(row, ledger.tick, bits_of(code));
    code
}

// Asks for a code from 1 to 15 at a tick: the ledger moves on to the tick, or is refused, and then
// grants the greatest code up to the one asked that the allowance has room for: 0 where there is
// room for none.
pub fn ask(row: &mut [u64], ledger: &mut Ledger, tick: u64, code: u32) -> Result<u32, Refusal>
    ensures answer { told result ≡ (ledger_calls.ask (lent row.old ledger.old) tick code).said }
    ensures link { lent row.new ledger.new ≡ (ledger_calls.ask (lent row.old ledger.old) tick code).left }
{
    if !in_range(1, code as u64, TOP_CODE as u64) {
        return Err(Refusal::OutOfRange);
    }
    move_on(row, ledger, tick)?;
    Ok(approve(row, *ledger, code))
}
