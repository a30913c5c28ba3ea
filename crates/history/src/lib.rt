// Lists of calls after set-up, and the theorems of demands 2 and 3 over every such list.
// There is no code here: the definitions stand in specs/, the proofs in proofs/.

#![tactic(auto)]
