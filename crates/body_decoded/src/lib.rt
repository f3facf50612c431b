// What an instruction of the code says, and the type of which it makes an object. No code: specs/ has the readings,
// proofs/Kept.antt the claim that judging it so is judging the instruction that was read.

#![tactic(auto)]
