// What a refusal says: its number, its place, and that it is the first fault. No code: specs/ has the statements, proofs/
// proves them.

#![tactic(auto)]
