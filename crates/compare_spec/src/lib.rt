// What differs between two clutter filter maps: definitions and theorems, and no code. The code is in `compare`.
#![tactic(auto)]
