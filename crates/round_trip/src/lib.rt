// A written message is read back unchanged: a theorem over the rules of the writer and of sets. There is no code here.
#![tactic(auto)]
