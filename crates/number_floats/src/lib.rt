// The bytes of floats, each float one item. The answer is that of scope's definition (specs/Floats.antt), on any bytes and at any
// place.
#![tactic(auto)]

ghost use Rattle.std.specs.Prelude.{◌*◌, ◌^◌};
ghost use Rattle.scope.specs.Numbers.{float_bytes, float32, float64};
ghost use Rattle.number_floats.specs.Floats.{FloatLength, FloatRead};

use scope::{Read, Refused, refusals};

// A float's length, and the first number that is no byte.
const F32_BYTES: usize = 4;

const F64_BYTES: usize = 8;

const BYTE_LIMIT: u64 = 256;

// So many bytes as one number, the lowest first. They are one item: where any is missing, 1 at the first of them. Read from
// the highest down, so that no weight has to be kept.
#[tactic(auto, using(crate::proofs::Floats::float_exits))]
fn float_at(s: &[u8], at: usize, n: usize) -> Read<u64>
    requires { FloatLength n }
    ensures { FloatRead (2 ^ (8 * n)) (float_bytes n s.now at) result }
{
    if s.len().saturating_sub(at) < n {
        return Err(Refused {
            number: refusals::BYTES_END,
            at,
        });
    }
    let mut bits: u64 = 0;
    for i in (0..n).rev() {
        bits = bits * BYTE_LIMIT + s[at + i] as u64;
    }
    Ok((bits, at + n))
}

// The bits of an f32 are four bytes.
pub fn float32_at(s: &[u8], at: usize) -> Read<u64>
    ensures { FloatRead (2 ^ 32) (float32 s.now at) result }
{
    float_at(s, at, F32_BYTES)
}

// Those of an f64 are eight.
pub fn float64_at(s: &[u8], at: usize) -> Read<u64>
    ensures { FloatRead (2 ^ 64) (float64 s.now at) result }
{
    float_at(s, at, F64_BYTES)
}
