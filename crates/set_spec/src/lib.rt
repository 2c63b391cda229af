// What a buffer of frames says as a set, and when it is refused: definitions and theorems, and no code. The code is in `set_segment`
// and `set`.
#![tactic(auto)]
