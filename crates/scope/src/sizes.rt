// The sizes of document 01, as specs/Sizes.antt has them, and those of the lent buffers in elements, as specs/Layout.antt has them.

// bytes a section or body
pub const MOST_BYTES: usize = 32768;

pub const MOST_TYPES: u64 = 1024;

// fields, parameters or results each
pub const MOST_EACH: u64 = 64;

// steps up a supertype chain
pub const MOST_STEPS: u64 = 63;

// locals with parameters
pub const MOST_LOCALS: u64 = 256;

// operands in all frames after an instruction
pub const MOST_OPERANDS: u64 = 512;

// open blocks: 64 frames, the function's own counted
pub const MOST_BLOCKS: u64 = 63;

pub const MOST_BUDGET: u64 = 1000000;

pub const MOST_OBJECTS: u64 = 1024;

pub const MOST_CELLS: u64 = 4096;

// an entry's elements

pub const ROW: u64 = 16;

pub const VALUE: u64 = 2;

pub const OBJECT: u64 = 4;

pub const BLOCK: u64 = 3;

// the buffers' sizes

pub const ROWS: usize = 16384;

// of the library's codes, and of the add-on's
pub const CODES: usize = 32768;

pub const WORK: usize = 4096;

pub const ENDS: usize = 32768;

pub const COUNTS: usize = 6;

pub const OBJECTS: usize = 4096;

pub const CELLS: usize = 8192;

pub const LOCALS: usize = 512;

pub const OPERANDS: usize = 1024;

pub const BLOCKS: usize = 189;
