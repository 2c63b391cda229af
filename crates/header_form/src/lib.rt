// The two forms of a message header: what is read and written in each, and what is asked of them. Theorems over the rules of `header`, and no
// code.
#![tactic(auto)]
