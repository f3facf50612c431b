// The words of a run's state as docs/LAYOUT.md tells them, and that equal words mean equal machines. No code: specs/Layout.antt says
// what stands at each word, specs/Laws.antt what is proved of it, proofs/ what proves it.

#![tactic(auto)]
