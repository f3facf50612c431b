// The numbers of the traps, as specs/Refusals.antt has them.

// unreachable
pub const UNREACHABLE: u64 = 41;

// null used by get, set, as_non_null or ref.get_desc
pub const NULL: u64 = 42;

// null descriptor
pub const NULL_DESCRIPTOR: u64 = 43;

// cast failed
pub const CAST: u64 = 44;

// no room
pub const NO_ROOM: u64 = 45;

// a numeric code other than those that the run does
pub const OTHER_NUMERIC: u64 = 46;
