// What the bits of so many bytes mean as a number: its value and range, and that no byte is to spare. Each answer is that of
// scope's definitions (specs/Values.antt); how the bits were read is not known here.
#![tactic(auto)]

ghost use Rattle.std.specs.Prelude.{◌<◌, ◌^◌, ◌≡◌};
ghost use Rattle.scope.specs.Reading.{got};
ghost use Rattle.scope.specs.Numbers.{plus, minus, signed_of, within_signed, unless_padded};
ghost use Rattle.number_values.specs.Values.{Few, Counts, Below, natural_is, SignWeight, has_spare, natural_of, range_of, integer_is};

use scope::{Read, Refused, refusals};

// The first number that is more than one byte.
pub const TWO_BYTES: u64 = 128;

// The first byte whose sign is set.
const SIGN: u64 = 64;

// The first number that is no u32.
const U32_LIMIT: u64 = 4294967296;

// A whole number by its magnitude, and the place after it; or a refusal's number and place.
#[derive(Clone, Copy)]
pub enum Integer {
    Plus(u64, usize),
    Minus(u64, usize),
    Refused(u64, usize),
}

// The weight of the highest bit of so many bytes: the sign.
fn sign_weight(count: u64) -> u64
    ensures { SignWeight count result }
{
    match count {
        1 => 64,
        2 => 8192,
        3 => 1048576,
        4 => 134217728,
        5 => 17179869184,
        6 => 2199023255552,
        7 => 281474976710656,
        8 => 36028797018963968,
        _ => 4611686018427387904,
    }
}

// Whether one of so many bytes is to spare: of what lies below the sign, n, one byte less holds all.
fn spare(n: u64, count: u64) -> bool
    requires { Counts count }
    ensures { result ≡ has_spare n count }
{
    if count == 1 {
        return false;
    }
    let less = sign_weight(count - 1);
    n < less
}

// The bits of so many bytes as a number of 32 bits: in range (2), and no byte to spare (32). A natural number has no sign, so
// half of it lies below.
pub fn natural_of(value: u64, count: u64, next: usize, at: usize) -> Read<u64>
    requires { Few 9 value count }
    ensures { result ≡ natural_is (natural_of at value count next) }
{
    if U32_LIMIT <= value {
        return Err(Refused {
            number: refusals::BAD_NUMBER,
            at,
        });
    }
    if spare(value / 2, count) {
        return Err(Refused {
            number: refusals::PADDED,
            at,
        });
    }
    Ok((value, next))
}

// A number that is not negative, of so many bytes: none of them to spare (32).
pub fn plus_of(value: u64, count: u64, next: usize, at: usize) -> Integer
    requires { Counts count }
    ensures { result ≡ integer_is (unless_padded at count next within_signed (plus value)) }
{
    if spare(value, count) {
        return Integer::Refused(refusals::PADDED, at);
    }
    Integer::Plus(value, next)
}

// One below zero, by its magnitude: as many lie below the sign as above it, and the first of them is -1.
pub fn minus_of(under: u64, count: u64, next: usize, at: usize) -> Integer
    requires { Below under count }
    ensures { result ≡ integer_is (unless_padded at count next within_signed (minus under)) }
{
    if spare(under - 1, count) {
        return Integer::Refused(refusals::PADDED, at);
    }
    Integer::Minus(under, next)
}

// The bits of so many bytes as a whole number: below the sign's weight as they are, else less twice that weight.
pub fn signed_of(value: u64, count: u64, next: usize, at: usize, half: u64) -> Integer
    requires { Few 9 value count }
    ensures { result ≡ integer_is (range_of at half value count next) }
{
    let sign = sign_weight(count);
    if value < sign {
        if value < half {
            return plus_of(value, count, next, at);
        }
        return Integer::Refused(refusals::BAD_NUMBER, at);
    }
    let under = 2 * sign - value;
    if under <= half {
        return minus_of(under, count, next, at);
    }
    Integer::Refused(refusals::BAD_NUMBER, at)
}

// One byte as a whole number: its highest bit is the sign.
pub fn signed_byte(b: u64, next: usize) -> Integer
    requires { b < 2 ^ 7 }
    ensures { result ≡ integer_is (got (signed_of b 1) next) }
{
    if b < SIGN {
        return Integer::Plus(b, next);
    }
    Integer::Minus(TWO_BYTES - b, next)
}
