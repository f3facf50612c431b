// Laws of the trial run over the definitions. No code: specs/Counting.antt says what is counted, specs/Laws.antt states
// the laws, and proofs/Laws.antt cites what proves each.

#![tactic(auto)]
