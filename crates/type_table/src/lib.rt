// The lent table of types, read: each question about a type by number, and what a code says. Every answer is what the
// table's words say (specs/View.antt), for any words and any number: a number that names no row reads as words of zero.
#![tactic(auto)]

ghost use Rattle.std.specs.Prelude.{◌≡◌, ◌+◌, ◌*◌};
ghost use Rattle.scope.specs.Layout.{row_span};
ghost use Rattle.scope.specs.Syntax.{super_of};
ghost use Rattle.scope.specs.TypeRules.{is_struct};
ghost use Rattle.lent_u16.specs.Words.{WordAt};
ghost use Rattle.type_table.specs.View.{heap_at_code, val_at_code, link_at, view, both_codes};
ghost use Rattle.type_table.specs.Answers.{link_is, heap_is, val_is, supers_list, shape_form};

use scope::sizes;

// The words of a row, as specs/RowWords.antt has them.
const FORM: u8 = 0;

const COUNT: u8 = 1;

const RESULTS: u8 = 2;

const OPEN: u8 = 3;

const SUPER: u8 = 4;

const DESCRIBES: u8 = 5;

const DESCRIPTOR: u8 = 6;

const FROM: u8 = 7;

const TO: u8 = 8;

const REACH: u8 = 9;

const FIRST: u8 = 10;

const FURTHER: u8 = 11;

// What a row's first word says of its form.
pub const STRUCT: u64 = 1;

pub const FUNC: u64 = 2;

// The number as which every type number that names no type is kept (specs/Kept.antt).
pub const BEYOND: u64 = 4095;

// No lent memory has a row of this number or a higher one, and a lower one's place fits 64 bits.
const NO_ROW: u64 = 576460752303423488;

// The add-on's codes have the places below this one, the library's those from it on.
pub const SHARED: u64 = sizes::CODES as u64;

// The supertypes that the table keeps: rule 1 refuses a second one.
#[derive(Clone, Copy)]
pub enum Supers {
    Nothing,
    One(u64),
    Two(u64, u64),
}

// A form, by where its codes start and how many they are: those of its fields, or of its parameters and of its results.
#[derive(Clone, Copy)]
pub enum Shape {
    Struct(u32, u32),
    Func(u32, u32, u32, u32),
}

// A heap type: the number of an abstract one, or a type number.
#[derive(Clone, Copy)]
pub enum HeapKind {
    Abstract(u64),
    Defined(u64),
    Exact(u64),
}

// A value type: a number type's code, or whether it is nullable and its heap type's code.
#[derive(Clone, Copy)]
pub enum ValKind {
    Number(u64),
    Ref(bool, u64),
}

// A word of a row.
fn row_word(rows: &[u16], x: u64, k: u8) -> u64
    ensures { WordAt rows.now (row_span * x + k) result }
{
    if x < NO_ROW {
        lent_u16::word(rows, sizes::ROW * x + k as u64)
    } else {
        0
    }
}

// A code: the word at a place of both lists, the add-on's first. No other crate reads one by its place alone.
pub fn code_word(shared: &[u16], codes: &[u16], at: u64) -> u64
    ensures { WordAt (both_codes shared.now codes.now) at result }
{
    if at < SHARED {
        lent_u16::word(codes, at)
    } else {
        lent_u16::word(shared, at - SHARED)
    }
}

fn link_of(w: u64) -> Option<u64>
    ensures { result ≡ link_is (link_at w) }
{
    if w == 0 { None } else { Some(w - 1) }
}

pub fn is_open(rows: &[u16], shared: &[u16], codes: &[u16], x: u64) -> bool
    ensures { result ≡ (view rows.now (both_codes shared.now codes.now) x).is_open }
{
    row_word(rows, x, OPEN) == 1
}

// The first supertype.
pub fn super_of(rows: &[u16], shared: &[u16], codes: &[u16], x: u64) -> Option<u64>
    ensures { result ≡ link_is (super_of (view rows.now (both_codes shared.now codes.now) x)) }
{
    let w = row_word(rows, x, SUPER);
    if w == 0 {
        link_of(row_word(rows, x, FURTHER))
    } else {
        Some(w - 1)
    }
}

pub fn supers_of(rows: &[u16], shared: &[u16], codes: &[u16], x: u64) -> Supers
    ensures { (view rows.now (both_codes shared.now codes.now) x).supers ≡ supers_list result }
{
    let w = row_word(rows, x, SUPER);
    let v = row_word(rows, x, FURTHER);
    if w == 0 {
        if v == 0 {
            Supers::Nothing
        } else {
            Supers::One(v - 1)
        }
    } else {
        if v == 0 {
            Supers::One(w - 1)
        } else {
            Supers::Two(w - 1, v - 1)
        }
    }
}

pub fn describes_of(rows: &[u16], shared: &[u16], codes: &[u16], x: u64) -> Option<u64>
    ensures { result ≡ link_is (view rows.now (both_codes shared.now codes.now) x).describes }
{
    link_of(row_word(rows, x, DESCRIBES))
}

pub fn descriptor_of(rows: &[u16], shared: &[u16], codes: &[u16], x: u64) -> Option<u64>
    ensures { result ≡ link_is (view rows.now (both_codes shared.now codes.now) x).descriptor }
{
    link_of(row_word(rows, x, DESCRIPTOR))
}

// Where the bytes of its definition start, and where they end.
pub fn from_of(rows: &[u16], shared: &[u16], codes: &[u16], x: u64) -> u64
    ensures { result ≡ (view rows.now (both_codes shared.now codes.now) x).from }
{
    row_word(rows, x, FROM)
}

pub fn to_of(rows: &[u16], shared: &[u16], codes: &[u16], x: u64) -> u64
    ensures { result ≡ (view rows.now (both_codes shared.now codes.now) x).to }
{
    row_word(rows, x, TO)
}

pub fn reach_of(rows: &[u16], shared: &[u16], codes: &[u16], x: u64) -> u64
    ensures { result ≡ (view rows.now (both_codes shared.now codes.now) x).reach }
{
    row_word(rows, x, REACH)
}

pub fn is_struct(rows: &[u16], shared: &[u16], codes: &[u16], x: u64) -> bool
    ensures { result ≡ is_struct (view rows.now (both_codes shared.now codes.now) x).form }
{
    if row_word(rows, x, FORM) == FUNC {
        false
    } else {
        true
    }
}

pub fn shape_of(rows: &[u16], shared: &[u16], codes: &[u16], x: u64) -> Shape
    ensures { (view rows.now (both_codes shared.now codes.now) x).form ≡ shape_form (both_codes shared.now codes.now) result }
{
    let first = row_word(rows, x, FIRST);
    let n = row_word(rows, x, COUNT);
    if row_word(rows, x, FORM) == FUNC {
        let m = row_word(rows, x, RESULTS);
        Shape::Func(first as u32, n as u32, (first + n) as u32, m as u32)
    } else {
        Shape::Struct(first as u32, n as u32)
    }
}

pub fn heap_of(c: u64) -> HeapKind
    ensures { result ≡ heap_is (heap_at_code c) }
{
    if c < 10 {
        return HeapKind::Abstract(c);
    }
    let x = (c - 10) / 2;
    if c % 2 == 1 {
        HeapKind::Exact(x)
    } else {
        HeapKind::Defined(x)
    }
}

pub fn val_of(c: u64) -> ValKind
    ensures { result ≡ val_is (val_at_code c) }
{
    if c < 4 {
        ValKind::Number(c)
    } else {
        ValKind::Ref(c % 2 == 1, (c - 4) / 2)
    }
}
