// No code: what the library promises as a whole, as theorems over the crates below.
#![tactic(auto)]
