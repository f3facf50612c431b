// What stands after a code, read where it is short or else by the readers of number.
#![tactic(auto)]

ghost use Rattle.scope.specs.Numbers.{s32, s64, float_bytes};
ghost use Rattle.body_quick_read.specs.Items.{ByteOr, NumberTold, TwoTold, SizeTold};

use number_values::Integer;

// What was read and how many bytes it takes; no bytes where it is not told here.
#[derive(Clone, Copy)]
pub struct Item {
    pub value: u64,
    pub size: u64,
}

// A byte, and 256 past the end.
pub fn byte(s: &[u8], at: usize) -> u64
    ensures { ByteOr s.now at result }
{
    if at < s.len() { s[at] as u64 } else { 256 }
}

fn long_number(s: &[u8], at: usize) -> Item
    ensures { NumberTold s.now at result }
{
    let read = number::u32_at(s, at);
    match read {
        Err(_) => Item { value: 0, size: 0 },
        Ok((x, next)) => Item {
            value: x,
            size: (next - at) as u64,
        },
    }
}

// A u32: that of one byte first.
pub fn number_at(s: &[u8], at: usize) -> Item
    ensures { NumberTold s.now at result }
{
    let b = byte(s, at);
    if b < 128 {
        return Item { value: b, size: 1 };
    }
    long_number(s, at)
}

// Two numbers, and how many bytes both take; no bytes where they are not told here.
#[derive(Clone, Copy)]
pub struct Two {
    pub first: u64,
    pub second: u64,
    pub size: u64,
}

pub fn two_at(s: &[u8], at: usize) -> Two
    ensures { TwoTold s.now at result }
{
    let x = number_at(s, at);
    let n = x.size;
    let first = x.value;
    if n == 0 {
        return Two {
            first: 0,
            second: 0,
            size: 0,
        };
    }
    let next = at + n as usize;
    let y = number_at(s, next);
    let m = y.size;
    let second = y.value;
    if m == 0 {
        return Two {
            first: 0,
            second: 0,
            size: 0,
        };
    }
    Two {
        first: first,
        second: second,
        size: n + m,
    }
}

// How many bytes a whole number of 32 bits takes; or 0.
fn long32(s: &[u8], at: usize) -> u64
    ensures { SizeTold s32 s.now at result }
{
    let read = number::s32_at(s, at);
    match read {
        Integer::Refused(_, _) => 0,
        Integer::Plus(_, next) => (next - at) as u64,
        Integer::Minus(_, next) => (next - at) as u64,
    }
}

pub fn size32(s: &[u8], at: usize) -> u64
    ensures { SizeTold s32 s.now at result }
{
    let b = byte(s, at);
    if b < 128 { 1 } else { long32(s, at) }
}

// And one of 64 bits.
fn long64(s: &[u8], at: usize) -> u64
    ensures { SizeTold s64 s.now at result }
{
    let read = number::s64_at(s, at);
    match read {
        Integer::Refused(_, _) => 0,
        Integer::Plus(_, next) => (next - at) as u64,
        Integer::Minus(_, next) => (next - at) as u64,
    }
}

pub fn size64(s: &[u8], at: usize) -> u64
    ensures { SizeTold s64 s.now at result }
{
    let b = byte(s, at);
    if b < 128 { 1 } else { long64(s, at) }
}

// A float of n bytes: as many, where they are there.
pub fn float_size(s: &[u8], at: usize, n: usize) -> u64
    ensures { SizeTold (float_bytes n) s.now at result }
{
    let all = s.len();
    if all < n {
        return 0;
    }
    if all - n < at { 0 } else { n as u64 }
}
