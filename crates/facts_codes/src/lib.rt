// Every code of document 01's list of instructions and of request 1 of document 02, read by the definitions; the numeric codes by
// name. No code: specs/ has the rows, proofs/Codes.antt and proofs/Numeric.antt hold the definitions against each, and
// proofs/Proper.antt says what every instruction has that is read.

#![tactic(auto)]
