// The typing rules of a body as relations, and the proof that the verdict is yes exactly when they allow the body. No code:
// specs/ has the rules and proofs/Main.antt the one claim about them.

#![tactic(auto)]
