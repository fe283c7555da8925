// The promises of the whole, as theorems (specs/ and proofs/). No code.
#![tactic(auto)]
