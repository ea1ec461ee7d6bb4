// The rules of paths: hops, runs, the program's line, rows of hop records.
// A rules crate has types, definitions, laws and claims, and no function. Here are the types that its definitions
// speak of; specs/ says what is promised, in the order that specs/Lib.antt gives; proofs/ proves it. The functions
// that keep these rules stand in the crates hops, path, plan and rows.
#![tactic(auto)]

// ---- hops

// Not an Option of two numbers, which would be no plainer: a router that is silent is there, and lowers the IP TTL.
#[derive(Clone, Copy, Debug, PartialEq, Eq)]
pub enum Router {
    // One that knows Quick-Start, with its ceiling and its fresh nonce.
    Knowing(u32, u32),
    Silent,
}

// The summary of a part of a path: its routers, the silent ones among them, and the least ceiling of those that know
// Quick-Start, 15 if there are none.
#[derive(Clone, Copy, Debug, PartialEq, Eq)]
pub struct Summary {
    pub routers: u32,
    pub silent: u32,
    pub least: u32,
}

// ---- rows

// A router on a path: whether it knows Quick-Start, its ceiling and its fresh nonce. A row in which either number is out
// of range, a silent hop's too, is refused with 7.
// The flag stands beside the numbers because C lends the record so.
#[repr(C)]
#[derive(Clone, Copy, Debug, PartialEq, Eq)]
pub struct Hop {
    pub knows: bool,
    pub ceiling: u32,
    pub fresh: u32,
}
