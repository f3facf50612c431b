// The words of a run's state, as specs/Layout.antt has them.

// the kinds of values: that of a number is one more than the code of its type

pub const NO_VALUE: u64 = 0;

pub const I32: u64 = 1;

pub const I64: u64 = 2;

pub const F32: u64 = 3;

pub const F64: u64 = 4;

pub const NULL: u64 = 5;

pub const OBJECT: u64 = 6;

// the words of an object; its descriptor is 0 for none, else one more than its number

pub const TYPE: u8 = 0;

pub const DESCRIPTOR: u8 = 1;

// its first cell, and how many it has

pub const FIRST: u8 = 2;

pub const COUNT: u8 = 3;

// the words of an open block

pub const KIND: u8 = 0;

pub const PLACE: u8 = 1;

// how many operands lie below it, in all frames
pub const BELOW: u8 = 2;

// its kinds

pub const OPENED_BLOCK: u16 = 1;

pub const OPENED_LOOP: u16 = 2;

// the first number that 32 bits cannot hold
pub const NUMBER_LIMIT: u64 = 4294967296;
