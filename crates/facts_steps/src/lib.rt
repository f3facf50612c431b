// The instructions of the trial run as rules, one constructor for each written rule, and that the machine's step is what the
// rules say. No code: specs/Rules.antt and Trapping.antt are the rules, specs/Laws.antt the theorem, proofs/ what proves it.

#![tactic(auto)]
