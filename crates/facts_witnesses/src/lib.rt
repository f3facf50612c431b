// Bodies on both sides of the rules: the theorem of facts_bodies at samples. No code: specs/ has the samples, proofs/ a derivation
// for each that is accepted, and that there is none for each that is not.

#![tactic(auto)]
