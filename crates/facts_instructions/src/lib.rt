// The bytes of instructions as a relation, a constructor for each line of document 01 and of request 1, and that an instruction is
// read exactly where a writing of it lies. No code: specs/ says it, proofs/ proves it.

#![tactic(auto)]
