// Demand 2 over the public calls: yes exactly when document 01 allows it, and the very answer. No code: specs/Calls.antt is
// the page of theorems, read with scope/specs and the relations that it names; proofs/Holds.antt cites what proves each.

#![tactic(auto)]
