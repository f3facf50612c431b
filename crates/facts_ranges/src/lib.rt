// What words 12 and 13 of a row tell a host: which types are below which. No code: specs/Tell.antt says it of every list of types
// that is allowed, proofs/Tell.antt proves it.

#![tactic(auto)]
