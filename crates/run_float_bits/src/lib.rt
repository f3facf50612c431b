// The language's float operations, tied to the definitions'. No code: what a pattern of bits is read as, and what a float is
// written as, by the definitions' sign and magnitude (proofs/Patterns.antt, proofs/Written.antt); each operation of the
// language on what two patterns are read as, written as bits, is the definitions' operation on the patterns
// (proofs/Tied.antt).

#![tactic(auto)]
