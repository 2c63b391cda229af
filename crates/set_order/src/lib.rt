// A set's frames in the order in which they arrive: what does not depend on it, and what may. Theorems over the rule of `set_spec`, and no
// code.
#![tactic(auto)]
