// What the specifications and proofs of all crates share: choices by a test, and laws on numbers
// and lists that know nothing of Quick-Start. It has no code: see specs/ and proofs/.
#![tactic(auto)]
