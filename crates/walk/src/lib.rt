// No functions: the two lemmas by which an entry over a lent record is proved from its core (see proofs/).

#![tactic(auto)]
