// Rows of bytes within the store: the bytes of a row, the store after a write into a row and after a copy of one, and
// what each row holds then. There are no functions here.

#![tactic(auto)]
