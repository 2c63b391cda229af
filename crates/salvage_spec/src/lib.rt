// What is kept and skipped of a damaged recording: definitions and theorems, and no code. The code is in `salvage_find` and `salvage`.
#![tactic(auto)]
