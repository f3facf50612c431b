// The ranges that are put into the rows say who climbs to whom. No code.

#![tactic(auto)]
