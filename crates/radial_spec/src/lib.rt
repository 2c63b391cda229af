// What a radial says, which bytes it names and when it is refused: definitions and theorems, and no code. The code is in `radial_check`
// and the crates above it.
#![tactic(auto)]
