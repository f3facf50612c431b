// Examples, computed over the definitions. No code: specs/Cases.antt has the proof table, document 01's starred examples among it,
// and proofs/Table.antt the one claim about it; specs/Pinned.antt what pins a definition down; specs/FaultCases.antt sections
// with two faults each.

#![tactic(auto)]
