// The numbers of change request 1, held against a second account. No code: specs/Standard.antt has the core standard's lines
// for each float operation, specs/Comparing.antt those for comparisons, specs/Halfway.antt rounding by half-way points,
// specs/Vectors.antt the examples; proofs/ shows that the definitions say the same.

#![tactic(auto)]
