// A section is accepted exactly when the rules allow it. No code: specs/ has the format as relations, over the type rules of
// facts_types; proofs/ has the equivalence with the verdict, and which fault is first.

#![tactic(auto)]
