// The words of operands on the scratch's stack, and of what is wanted of an operand: what they say is told by body_state's
// State.antt.

// Two more than a type's code is its word; the two words below are an unknown, and a non-null reference of unknown heap.
#![tactic(auto)]

pub const UNKNOWN: u64 = 0;

pub const UNKNOWN_REFERENCE: u64 = 1;

pub const KNOWN: u64 = 2;

// In what is wanted: any value, and any reference.
pub const ANY_VALUE: u64 = 0;

pub const ANY_REFERENCE: u64 = 1;

// The words of references begin here, after those of the four number types.
pub const REFERENCES: u64 = 6;
