// The cases of document 01 that are proved together, W1 to W14, as one table. It has no code: see
// specs/ and proofs/.
#![tactic(auto)]
