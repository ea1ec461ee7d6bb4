// The rules of a sender: its record, asking and the response, ECN and pipeACK.
// A rules crate has types, definitions, laws and claims, and no function. Here are the types that its definitions
// speak of; specs/ says what is promised, in the order that specs/Lib.antt gives; proofs/ proves it. The functions
// that keep these rules stand in the crates connection, asking, accepting, ending, echo, sampling and phase.
#![tactic(auto)]

// ---- connection

// The request that waits for its response: the code asked, the starting TTL Diff and the nonce.
#[derive(Clone, Copy, Debug, PartialEq, Eq)]
pub struct OpenRequest {
    pub code: u32,
    pub ttl_diff: u8,
    pub nonce: u32,
}

// What is kept while quick: the window before the Quick-Start window was taken.
#[derive(Clone, Copy, Debug, PartialEq, Eq)]
pub struct Before {
    pub window: u64,
}

#[derive(Clone, Copy, Debug, PartialEq, Eq)]
pub enum State {
    Idle,
    Asked(OpenRequest),
    Quick(Before),
}

// What was acknowledged in a round trip that ended at a time.
#[derive(Clone, Copy, Debug, PartialEq, Eq)]
pub struct Sample {
    pub time: u64,
    pub bytes: u64,
}

#[derive(Clone, Copy, Debug, PartialEq, Eq)]
pub struct Connection {
    pub state: State,
    pub window: u64,
    pub ssthresh: u64,
    // The time of the last request, in microseconds.
    pub last_request: Option<u64>,
    // The ECN mark: the highest number sent when the window was last lowered for an echo.
    pub mark: Option<u32>,
    // The samples stand in the first `count` places, the one added last in front. An array and a count, since a record that
    // is lent may have any count, and one above five is refused with 7 (the edit `definition_of_6_samples`).
    pub samples: [Sample; 5],
    pub count: usize,
    // The start of the non-validated period, if one runs.
    pub period: Option<u64>,
}

// ---- asking

// What a sender asks with: the code, the starting IP TTL and QS TTL, the nonce, the round trip and the present time, both
// in microseconds.
#[derive(Clone, Copy, Debug, PartialEq, Eq)]
pub struct Wish {
    pub code: u32,
    pub ttl: u8,
    pub qs_ttl: u8,
    pub nonce: u32,
    pub rtt: u64,
    pub time: u64,
}
