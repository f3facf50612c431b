// The numbers by which the loader says no, as specs/Refusals.antt has them.

// bytes end inside an item
pub const BYTES_END: u64 = 1;

// LEB too long or out of range
pub const BAD_NUMBER: u64 = 2;

// byte or FB number not listed, negative number as type
pub const NOT_LISTED: u64 = 3;

// a size exceeded
pub const OVERSIZE: u64 = 4;

// bytes left over
pub const LEFT_OVER: u64 = 5;

// type number out of reach
pub const OUT_OF_REACH: u64 = 6;

// supertype rule 1
pub const BAD_SUPERTYPE: u64 = 7;

// rule 2
pub const NO_MATCH: u64 = 8;

// clause not on a struct
pub const CLAUSE_NOT_ON_STRUCT: u64 = 9;

// describes not earlier
pub const DESCRIBES_NOT_EARLIER: u64 = 10;

// clauses disagree
pub const CLAUSES_DISAGREE: u64 = 11;

// rule 4
pub const BAD_DESCRIPTOR: u64 = 12;

// rule 5
pub const BAD_DESCRIBES: u64 = 13;

// a lent buffer under its size
pub const BUFFER_TOO_SMALL: u64 = 14;

// operand missing or wrong
pub const BAD_OPERAND: u64 = 20;

// label or local absent
pub const ABSENT: u64 = 21;

// local not set
pub const NOT_SET: u64 = 22;

// not a struct, no such field, descriptor missing or unwanted
pub const BAD_STRUCT: u64 = 23;

// field fixed
pub const FIELD_FIXED: u64 = 24;

// branching cast's rule, label without types
pub const BAD_BRANCH: u64 = 25;

// not a function type's number
pub const NOT_A_FUNCTION: u64 = 27;

// values left at end
pub const VALUES_LEFT: u64 = 28;

// no default
pub const NO_DEFAULT: u64 = 29;

// request 9 of document 02: an operand would fit if it could not be null
pub const ONLY_NULL: u64 = 31;

// request 10 of document 02: a LEB number with more bytes than it needs
pub const PADDED: u64 = 32;
