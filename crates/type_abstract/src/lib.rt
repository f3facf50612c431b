// The ten abstract heap types, as constant tables, and the questions that are asked of them. In code an abstract heap type
// is its number, which is its row's number in the tables; a number of 10 or more is read as the last row's, so that every
// function is total. specs/Heaps.antt says what each answer is.
#![tactic(auto)]

ghost use Rattle.std.specs.Prelude.{◌≡◌};
ghost use Rattle.scope.specs.Abstract.{row, abstract_of};
ghost use Rattle.scope.specs.Memory.{abstract_code};
ghost use Rattle.scope.specs.Order.{abstract_below};
ghost use Rattle.type_abstract.specs.Heaps.{abstract_at, RowNumber, coded, abstract_is};

// The number of each abstract heap type.
pub const NOFUNC: u8 = 0;

pub const NOEXTERN: u8 = 1;

pub const NONE: u8 = 2;

pub const FUNC: u8 = 3;

pub const EXTERN: u8 = 4;

pub const ANY: u8 = 5;

pub const EQ: u8 = 6;

pub const I31: u8 = 7;

pub const STRUCT: u8 = 8;

pub const ARRAY: u8 = 9;

// How many there are.
const TEN: u64 = 10;

// The codes count down from the first type's to the last one's.
const FIRST_CODE: u64 = 0x73;

const LAST_CODE: u64 = 0x6A;

// A row: the top and the bottom of its hierarchy.
#[derive(Clone, Copy)]
pub struct HeapRow {
    pub top: u8,
    pub bottom: u8,
}

pub const HEAPS: [HeapRow; 10] = [
    // nofunc
    HeapRow {
        top: FUNC,
        bottom: NOFUNC,
    },
    // noextern
    HeapRow {
        top: EXTERN,
        bottom: NOEXTERN,
    },
    // none
    HeapRow {
        top: ANY,
        bottom: NONE,
    },
    // func
    HeapRow {
        top: FUNC,
        bottom: NOFUNC,
    },
    // extern
    HeapRow {
        top: EXTERN,
        bottom: NOEXTERN,
    },
    // any
    HeapRow {
        top: ANY,
        bottom: NONE,
    },
    // eq
    HeapRow {
        top: ANY,
        bottom: NONE,
    },
    // i31
    HeapRow {
        top: ANY,
        bottom: NONE,
    },
    // struct
    HeapRow {
        top: ANY,
        bottom: NONE,
    },
    // array
    HeapRow {
        top: ANY,
        bottom: NONE,
    },
];

// Whether one abstract type is another or below it: ten for each, in the order of the numbers.
pub const BELOW: [bool; 100] = [
    // nofunc
    true, false, false, true, false, false, false, false, false, false,
    // noextern
    false, true, false, false, true, false, false, false, false, false,
    // none
    false, false, true, false, false, true, true, true, true, true,
    // func
    false, false, false, true, false, false, false, false, false, false,
    // extern
    false, false, false, false, true, false, false, false, false, false,
    // any
    false, false, false, false, false, true, false, false, false, false,
    // eq
    false, false, false, false, false, true, true, false, false, false,
    // i31
    false, false, false, false, false, true, true, true, false, false,
    // struct
    false, false, false, false, false, true, true, false, true, false,
    // array
    false, false, false, false, false, true, true, false, false, true,
];

// The number of the row that a number is read as.
fn row_number(a: u64) -> u64
    ensures { RowNumber a result }
{
    if a < TEN { a } else { ARRAY as u64 }
}

// The row of an abstract heap type.
fn heap_row(a: u64) -> HeapRow
    ensures { result ≡ coded (row (abstract_at a)) }
{
    let k = row_number(a) as usize;
    HEAPS[k]
}

// The abstract heap type that has this code.
pub fn abstract_of(code: u64) -> Option<u64>
    ensures { result ≡ abstract_is (abstract_of code) }
{
    if code < LAST_CODE {
        return None;
    }
    if FIRST_CODE < code {
        return None;
    }
    Some(FIRST_CODE - code)
}

// The top of its hierarchy.
pub fn top_of(a: u64) -> u64
    ensures { result ≡ abstract_code (row (abstract_at a)).top }
{
    let h = heap_row(a);
    h.top as u64
}

// The bottom of its hierarchy.
pub fn bottom_of(a: u64) -> u64
    ensures { result ≡ abstract_code (row (abstract_at a)).bottom }
{
    let h = heap_row(a);
    h.bottom as u64
}

// Whether a is b or below it.
pub fn abstract_below(a: u64, b: u64) -> bool
    ensures { result ≡ abstract_below (abstract_at a) (abstract_at b) }
{
    let lower = row_number(a);
    let upper = row_number(b);
    let k = (TEN * lower + upper) as usize;
    BELOW[k]
}
