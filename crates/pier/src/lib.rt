// Theorems on a pier board: what holds of many packets or frames in a row. There is no code.
#![tactic(auto)]
