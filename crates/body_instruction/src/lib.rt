// Reading one instruction: its code, then what follows it. The first byte decides; after FB, a u32 does. Which bytes are
// numeric codes body_numeric knows.
#![tactic(auto)]

ghost use Rattle.std.specs.Prelude.{◌<◌, ◌^◌, ◌≡◌};
ghost use Rattle.scope.specs.Instructions.{instr_at};
ghost use Rattle.body_immediates.specs.Coding.{instruction_is};
ghost use Rattle.body_instruction.specs.Dispatch.{numeric_at, single_at, listed_at, prefixed_at};

use body_immediates::Instruction;
use scope::{Read, Refused, refusals};

// A numeric code b at `at`, where it is one: a code alone.
#[tactic(auto, using(crate::proofs::Codes::numeric_exits))]
fn numeric_at(at: usize, b: u64, next: usize) -> Read<Instruction>
    requires { b < 2 ^ 8 }
    ensures { result ≡ instruction_is (numeric_at b at next) }
{
    let code = b as u8;
    if body_numeric::is_numeric(code) {
        return Ok((Instruction::Numeric(code), next));
    }
    Err(Refused {
        number: refusals::NOT_LISTED,
        at,
    })
}

// What the first byte b at `at` begins, where it is not FB; what follows the byte is read at `next`. A byte has a line of its own, so
// that the reader of its immediates is put there with the byte that it is: this is done at each step of a run.
#[tactic(auto, using(crate::proofs::Codes::single_exits), unfolding(crate::proofs::Codes::rows))]
fn single_at(s: &[u8], at: usize, b: u64, next: usize) -> Read<Instruction>
    requires { b < 2 ^ 8 }
    ensures { result ≡ instruction_is (single_at b s.now at next) }
{
    match b {
        0x00 => Ok((Instruction::Unreachable, next)),
        0x01 => Ok((Instruction::Nop, next)),
        0x02 => body_immediates::opening_at(s, next, b),
        0x03 => body_immediates::opening_at(s, next, b),
        0x0B => Ok((Instruction::End, next)),
        0x0C => body_immediates::numbered_at(s, next, b),
        0x0D => body_immediates::numbered_at(s, next, b),
        0x0F => Ok((Instruction::Return, next)),
        0x1A => Ok((Instruction::Drop, next)),
        0x20 => body_immediates::numbered_at(s, next, b),
        0x21 => body_immediates::numbered_at(s, next, b),
        0x22 => body_immediates::numbered_at(s, next, b),
        0x41 => body_immediates::constant_at(s, next),
        0x42 => body_immediates::wide_at(s, next),
        0x43 => body_immediates::float32_const_at(s, next),
        0x44 => body_immediates::float64_const_at(s, next),
        0xD0 => body_immediates::null_at(s, next),
        0xD1 => Ok((Instruction::RefIsNull, next)),
        0xD3 => Ok((Instruction::RefEq, next)),
        0xD4 => Ok((Instruction::RefAsNonNull, next)),
        _ => numeric_at(at, b, next),
    }
}

// What the number n at `at`, read after FB, begins; what follows it is read at `next`. A number has a line of its own here too, but for
// struct.get and struct.set: their reader is long, and is put there only while it has one caller.
#[tactic(auto, using(crate::proofs::Codes::listed_exits), unfolding(crate::proofs::Codes::rows))]
fn listed_at(s: &[u8], at: usize, n: u64, next: usize) -> Read<Instruction>
    ensures { result ≡ instruction_is (listed_at n s.now at next) }
{
    match n {
        0x00 => body_immediates::typed_at(s, next, n),
        0x01 => body_immediates::typed_at(s, next, n),
        0x02 | 0x05 => body_immediates::fielded_at(s, next, n),
        0x14 => body_immediates::tested_at(s, next, n),
        0x15 => body_immediates::tested_at(s, next, n),
        0x16 => body_immediates::tested_at(s, next, n),
        0x17 => body_immediates::tested_at(s, next, n),
        0x18 => body_cast_immediates::casting_at(s, next, n),
        0x19 => body_cast_immediates::casting_at(s, next, n),
        0x20 => body_immediates::typed_at(s, next, n),
        0x21 => body_immediates::typed_at(s, next, n),
        0x22 => body_immediates::typed_at(s, next, n),
        0x23 => body_immediates::tested_at(s, next, n),
        0x24 => body_immediates::tested_at(s, next, n),
        0x25 => body_cast_immediates::casting_at(s, next, n),
        0x26 => body_cast_immediates::casting_at(s, next, n),
        _ => Err(Refused {
            number: refusals::NOT_LISTED,
            at,
        }),
    }
}

// FB was read: a u32, and what it begins.
#[tactic(auto, using(crate::proofs::Codes::prefixed_exits))]
fn prefixed_at(s: &[u8], at: usize) -> Read<Instruction>
    ensures { result ≡ instruction_is (prefixed_at s.now at) }
{
    let (n, next) = number::u32_at(s, at)?;
    listed_at(s, at, n, next)
}

#[tactic(auto, using(crate::proofs::Codes::instruction_exits))]
pub fn instruction_at(s: &[u8], at: usize) -> Read<Instruction>
    ensures { result ≡ instruction_is (instr_at s.now at) }
{
    let Some(b) = number_bytes::byte_at(s, at) else {
        return Err(Refused {
            number: refusals::BYTES_END,
            at,
        });
    };
    if b == 0xFB {
        return prefixed_at(s, at + 1);
    }
    single_at(s, at, b, at + 1)
}
