// Numbers in a run: one step of each numeric code that the run does and the bytes of request 1 of document 02, computed; and every
// number within the width of its kind. No code: specs/ has the lists and the statements, proofs/ the claims about them.

#![tactic(auto)]
