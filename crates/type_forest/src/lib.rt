// A forest of numbers in which every parent is the lower number, laid out so that what is below a number is a range. No code:
// specs/ says which ranges, proofs/ that they are those of the climbs.

#![tactic(auto)]
