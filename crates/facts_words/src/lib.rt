// What the definitions answer, as numbers that can be compared and printed. No code and no law: the examples compare them, and a test
// prints them.

#![tactic(auto)]
