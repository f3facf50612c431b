// Reading LEB128 numbers of 32, 33 and 64 bits, none of them padded: the bits of number_bits, as the numbers of number_values.
// Each answer is that of scope's definition (specs/Widths.antt), on any bytes and at any place.
#![tactic(auto)]

ghost use Rattle.std.specs.Prelude.{◌<◌, ◌^◌, ◌≡◌};
ghost use Rattle.scope.specs.Numbers.{u32, s32, s33, s64};
ghost use Rattle.number_values.specs.Values.{natural_is, integer_is};
ghost use Rattle.number.specs.Widths.{SignedRead, Tenth};

use number_bits::Leb;
use number_values::Integer;
use scope::{Read, Refused, refusals};

// Half of the numbers of 32 bits, of 33 and of 64: a signed one lies from minus that up to it.
const S32_HALF: u64 = 2147483648;

const S33_HALF: u64 = 4294967296;

const S64_HALF: u64 = 9223372036854775808;

// The greatest length of a number of 32 and of 33 bits; that of one of 64 bits is one more than nine bytes, whose bits still
// fit a word.
const FIVE: u64 = 5;

const NINE: u64 = 9;

const TEN: u64 = 10;

pub fn u32_at(s: &[u8], at: usize) -> Read<u64>
    ensures { result ≡ natural_is (u32 s.now at) }
{
    let read = number_bits::leb_at(s, at, FIVE);
    match read {
        Leb::One(value, next) => Ok((value, next)),
        Leb::Bits(value, count, next) => number_values::natural_of(value, count, next, at),
        Leb::Cut => Err(Refused {
            number: refusals::BYTES_END,
            at,
        }),
        Leb::Long(_, _) => Err(Refused {
            number: refusals::BAD_NUMBER,
            at,
        }),
    }
}

// A whole number of a width of five bytes, in the range from -half up to half.
fn signed_at(s: &[u8], at: usize, half: u64) -> Integer
    ensures { SignedRead s.now at half result }
{
    let read = number_bits::leb_at(s, at, FIVE);
    match read {
        Leb::One(b, next) => number_values::signed_byte(b, next),
        Leb::Bits(value, count, next) => number_values::signed_of(value, count, next, at, half),
        Leb::Cut => Integer::Refused(refusals::BYTES_END, at),
        Leb::Long(_, _) => Integer::Refused(refusals::BAD_NUMBER, at),
    }
}

pub fn s32_at(s: &[u8], at: usize) -> Integer
    ensures { result ≡ integer_is (s32 s.now at) }
{
    signed_at(s, at, S32_HALF)
}

pub fn s33_at(s: &[u8], at: usize) -> Integer
    ensures { result ≡ integer_is (s33 s.now at) }
{
    signed_at(s, at, S33_HALF)
}

// A number of 64 bits whose first nine bytes go on: of the tenth's seven bits one belongs to the number, the sign, and all
// have to be like it.
fn tenth_at(s: &[u8], at: usize, low: u64, next: usize) -> Integer
    requires { low < 2 ^ 63 }
    ensures { Tenth s.now at low next result }
{
    let read = number_bytes::byte_at(s, next);
    let Some(b) = read else {
        return Integer::Refused(refusals::BYTES_END, at);
    };
    if b == 0x00 {
        return number_values::plus_of(low, TEN, next + 1, at);
    }
    if b == 0x7F {
        return number_values::minus_of(S64_HALF - low, TEN, next + 1, at);
    }
    Integer::Refused(refusals::BAD_NUMBER, at)
}

pub fn s64_at(s: &[u8], at: usize) -> Integer
    ensures { result ≡ integer_is (s64 s.now at) }
{
    let read = number_bits::leb_at(s, at, NINE);
    match read {
        Leb::One(b, next) => number_values::signed_byte(b, next),
        Leb::Bits(value, count, next) => number_values::signed_of(value, count, next, at, S64_HALF),
        Leb::Cut => Integer::Refused(refusals::BYTES_END, at),
        Leb::Long(low, next) => tenth_at(s, at, low, next),
    }
}
