// Both round trips of packets, of every type: laws (proofs/) of the definitions that the contracts cite. No code.
#![tactic(auto)]
