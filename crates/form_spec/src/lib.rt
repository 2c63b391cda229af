// Bodies that are a table of fields with ranges, and parts repeated a counted number of times: definitions and laws, and no code. Messages 8
// and 9 are read and written by the first (`request`, `censor`), message 15 is made of the second (`map_spec`).
#![tactic(auto)]
