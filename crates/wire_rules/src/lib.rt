// The rules of bytes on the wire: rates, options, the walk over an options area, the IPv4 header.
// A rules crate has types, definitions, laws and claims, and no function. Here are the types that its definitions
// speak of; specs/ says what is promised, in the order that specs/Lib.antt gives; proofs/ proves it. The functions
// that keep these rules stand in the crates rates, options, nonce, walk and ipv4.
#![tactic(auto)]

// ---- rates

// What a window is worked out with: the round trip in microseconds, and the bytes of a segment and of its headers.
#[derive(Clone, Copy, Debug, PartialEq, Eq)]
pub struct Transport {
    pub rtt: u64,
    pub mss: u64,
    pub headers: u64,
}

// ---- options

#[derive(Clone, Copy, Debug, PartialEq, Eq)]
pub struct Request {
    pub rate: u32,
    pub qs_ttl: u8,
    pub nonce: u32,
}

#[derive(Clone, Copy, Debug, PartialEq, Eq)]
pub struct Response {
    pub rate: u32,
    pub ttl_diff: u8,
    pub nonce: u32,
}

// ---- ipv4

// What marking a packet decides.
#[derive(Clone, Copy, Debug, PartialEq, Eq)]
pub enum Marking {
    Marked,
    // The transport is not ECN-capable: the packet is to be dropped in place of being marked.
    Dropped,
}
