// The type rules of document 01 as relations, with no word of refusals or bytes. No code: specs/ has the rules and the chain's size,
// proofs/ that the types of a section are judged with yes exactly when they hold.

#![tactic(auto)]
