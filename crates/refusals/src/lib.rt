// The refusals of document 01's table, each by a name of its own, and its number; and the test that a
// number lies in its range, by which OutOfRange is given.
#![tactic(auto)]

ghost use Rattle.std.specs.Prelude.{◌≡◌};
ghost use Rattle.common.specs.Choice.{within};
ghost use Rattle.refusals.specs.Numbers.{number_of};

#[derive(Clone, Copy, Debug, PartialEq, Eq)]
pub enum Refusal {
    // The slice, the version, the header's length or the total length is wrong.
    Header = 1,
    // The header's checksum is wrong.
    Checksum = 2,
    // An option's length is wrong.
    OptionLength = 3,
    // There is no request: none in the packet, or the option is not one.
    NoRequest = 4,
    // A Quick-Start option whose length is not 8, or a second one.
    QuickStartOption = 5,
    // A router meets an IP TTL of 0 or 1.
    TtlExpired = 6,
    // A number or a buffer's length is outside its range.
    OutOfRange = 7,
    // The total of a ledger's row is above the allowance.
    OverAllowance = 8,
    // A time or a tick lies before the stored one.
    TimeBackwards = 9,
    // The connection is asked or quick, or its last request is less than a round trip ago.
    TooSoon = 10,
    // The call does not fit the connection's state.
    WrongState = 11,
    // The option is no response.
    NoResponse = 12,
    // The rate is 0 or above the code asked.
    WrongRate = 13,
    // The TTL Diff is not the stored one.
    WrongTtlDiff = 14,
    // The nonces do not agree.
    WrongNonce = 15,
}

impl Refusal {
    // The number of the table.
    pub fn number(self) -> u32
        ensures { result ≡ number_of self }
    {
        self as u32
    }
}

// Whether `n` is at least `lo` and at most `hi`.
#[tactic(auto, unfolding(common::specs::Choice::within))]
pub fn in_range(lo: u64, n: u64, hi: u64) -> bool
    ensures { result ≡ within lo n hi }
{
    lo <= n && n <= hi
}
