// The theorem about the C functions: whatever a caller does with them after set-up, demands 2 and 3 hold of what the
// caller sees and of the memory that the calls leave. There is no code here: what a reader must believe stands in specs/,
// the proofs in proofs/.

#![tactic(auto)]
