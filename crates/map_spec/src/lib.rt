// Message 15, the clutter filter map: definitions and theorems, and no code. The code is in `map_check` and `map`.
#![tactic(auto)]
