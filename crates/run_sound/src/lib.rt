// What soundness says of the machines that a run of an accepted body comes to, in the form that the run's code needs. No
// code: specs/Sound.antt has the claim and proofs/Along.antt the law.

#![tactic(auto)]
