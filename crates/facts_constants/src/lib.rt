// Every number of documents 01 and 02 that has a name, as the papers write it: refusals, traps, sizes, and the bytes of each lent
// buffer. No code: specs/Constants.antt is the table, proofs/Constants.antt computes it.

#![tactic(auto)]
