// Instructions, and the readers of what follows their codes: block types, labels, locals, constants, types and fields. An
// instruction is answered by value. Labels, locals, fields and constants stand as they were read; a type number is the
// kept one and a type its code, as everywhere in the table (type_table's Kept.antt).
#![tactic(auto)]

ghost use Rattle.std.specs.Prelude.{◌≡◌};
ghost use Rattle.scope.specs.Instructions.{block_type_at};
ghost use Rattle.type_read.specs.Codes.{coded_is};
ghost use Rattle.body_immediates.specs.Coding.{result_code, instruction_is, opening_at, numbered_at, constant_at, wide_at, float32_const_at, float64_const_at, null_at, typed_at, fielded_at, tested_at};

use number_values::Integer;
use scope::{Read, Refused, refusals};

// An instruction of document 01, or of request 1 of document 02, in their order. A constant is its bits, a numeric
// instruction its code. A block's or loop's result is 0 for none, else one more than its code. A bool says "null" where an
// instruction has both forms. A branching cast, in the order of its bytes: whether the source may be null, whether the
// target may be, the label, the source, the target. A bool further on, where no other row has a number, would take the
// unused bytes beside it along in each copy, apart from the rest: this is copied at each step of a run.
#[derive(Clone, Copy)]
pub enum Instruction {
    Unreachable,
    Nop,
    Block(u64),
    Loop(u64),
    End,
    Br(u64),
    BrIf(u64),
    Return,
    Drop,
    LocalGet(u64),
    LocalSet(u64),
    LocalTee(u64),
    I32Const(u32),
    I64Const(u64),
    F32Const(u32),
    F64Const(u64),
    Numeric(u8),
    RefNull(u64),
    RefIsNull,
    RefEq,
    RefAsNonNull,
    StructNew(u64),
    StructNewDefault(u64),
    StructGet(u64, u64),
    StructSet(u64, u64),
    RefTest(bool, u64),
    RefCast(bool, u64),
    BrOnCast(bool, bool, u64, u64, u64),
    BrOnCastFail(bool, bool, u64, u64, u64),
    StructNewDesc(u64),
    StructNewDefaultDesc(u64),
    RefGetDesc(u64),
    RefCastDescEq(bool, u64),
    BrOnCastDescEq(bool, bool, u64, u64, u64),
    BrOnCastDescEqFail(bool, bool, u64, u64, u64),
}

// "A block has type 40 or one value type.": 0, or one more than the code of its type.
#[tactic(auto, using(crate::proofs::Typing::block_exits))]
fn block_type_at(s: &[u8], at: usize) -> Read<u64>
    ensures { result ≡ coded_is result_code (block_type_at s.now at) }
{
    let Some(b) = number_bytes::byte_at(s, at) else {
        return Err(Refused {
            number: refusals::BYTES_END,
            at,
        });
    };
    if b == 0x40 {
        return Ok((0, at + 1));
    }
    let (code, next) = type_read::val_at(s, at)?;
    Ok((code + 1, next))
}

// 02 block or 03 loop.
#[tactic(auto, using(crate::proofs::Typing::opening_exits))]
pub fn opening_at(s: &[u8], at: usize, code: u64) -> Read<Instruction>
    ensures { result ≡ instruction_is (opening_at code s.now at) }
{
    let (result, next) = block_type_at(s, at)?;
    if code == 0x02 {
        return Ok((Instruction::Block(result), next));
    }
    Ok((Instruction::Loop(result), next))
}

// 0C br, 0D br_if, 20/21/22 local.get/set/tee: a label or a local.
#[tactic(auto, using(crate::proofs::Counting::numbered_exits))]
pub fn numbered_at(s: &[u8], at: usize, code: u64) -> Read<Instruction>
    ensures { result ≡ instruction_is (numbered_at code s.now at) }
{
    let (x, next) = number::u32_at(s, at)?;
    match code {
        0x0C => Ok((Instruction::Br(x), next)),
        0x0D => Ok((Instruction::BrIf(x), next)),
        0x20 => Ok((Instruction::LocalGet(x), next)),
        0x21 => Ok((Instruction::LocalSet(x), next)),
        _ => Ok((Instruction::LocalTee(x), next)),
    }
}

// 32 bits hold so many numbers.
const NUMBERS: u64 = 4294967296;

// 41 i32.const: the number as 32 bits.
#[tactic(auto, using(crate::proofs::Counting::constant_exits))]
pub fn constant_at(s: &[u8], at: usize) -> Read<Instruction>
    ensures { result ≡ instruction_is (constant_at s.now at) }
{
    match number::s32_at(s, at) {
        Integer::Refused(number, place) => Err(Refused { number, at: place }),
        Integer::Plus(v, next) => Ok((Instruction::I32Const(v as u32), next)),
        Integer::Minus(v, next) => { Ok((Instruction::I32Const((NUMBERS - v) as u32), next)) }
    }
}

// The greatest number of 64 bits.
const ALL_BITS: u64 = 18446744073709551615;

// 42 i64.const: the number as 64 bits.
#[tactic(auto, using(crate::proofs::Counting::wide_exits))]
pub fn wide_at(s: &[u8], at: usize) -> Read<Instruction>
    ensures { result ≡ instruction_is (wide_at s.now at) }
{
    match number::s64_at(s, at) {
        Integer::Refused(number, place) => Err(Refused { number, at: place }),
        Integer::Plus(v, next) => Ok((Instruction::I64Const(v), next)),
        Integer::Minus(v, next) => { Ok((Instruction::I64Const(ALL_BITS - (v - 1)), next)) }
    }
}

// 43 f32.const: its bytes.
#[tactic(auto, using(crate::proofs::Counting::float_exits))]
pub fn float32_const_at(s: &[u8], at: usize) -> Read<Instruction>
    ensures { result ≡ instruction_is (float32_const_at s.now at) }
{
    let (bits, next) = number_floats::float32_at(s, at)?;
    Ok((Instruction::F32Const(bits as u32), next))
}

// 44 f64.const: its bytes.
#[tactic(auto, using(crate::proofs::Counting::float_exits))]
pub fn float64_const_at(s: &[u8], at: usize) -> Read<Instruction>
    ensures { result ≡ instruction_is (float64_const_at s.now at) }
{
    let (bits, next) = number_floats::float64_at(s, at)?;
    Ok((Instruction::F64Const(bits), next))
}

// D0 ref.null: a heap type.
#[tactic(auto, using(crate::proofs::Typing::null_exits))]
pub fn null_at(s: &[u8], at: usize) -> Read<Instruction>
    ensures { result ≡ instruction_is (null_at s.now at) }
{
    let (heap, next) = type_read::heap_at(s, at)?;
    Ok((Instruction::RefNull(heap), next))
}

// FB 00 struct.new, 01 struct.new_default, 20/21 the same with a descriptor, 22 ref.get_desc: a type number.
#[tactic(auto, using(crate::proofs::Counting::typed_exits))]
pub fn typed_at(s: &[u8], at: usize, code: u64) -> Read<Instruction>
    ensures { result ≡ instruction_is (typed_at code s.now at) }
{
    let (x, next) = number::u32_at(s, at)?;
    let kept = type_read::kept_number(x);
    match code {
        0x00 => Ok((Instruction::StructNew(kept), next)),
        0x01 => Ok((Instruction::StructNewDefault(kept), next)),
        0x20 => Ok((Instruction::StructNewDesc(kept), next)),
        0x21 => Ok((Instruction::StructNewDefaultDesc(kept), next)),
        _ => Ok((Instruction::RefGetDesc(kept), next)),
    }
}

// FB 02 struct.get, 05 struct.set: a type number and a field.
#[tactic(auto, using(crate::proofs::Counting::fielded_exits))]
pub fn fielded_at(s: &[u8], at: usize, code: u64) -> Read<Instruction>
    ensures { result ≡ instruction_is (fielded_at code s.now at) }
{
    let (x, field) = number::u32_at(s, at)?;
    let (i, next) = number::u32_at(s, field)?;
    let kept = type_read::kept_number(x);
    let instruction = if code == 0x02 {
        Instruction::StructGet(kept, i)
    } else {
        Instruction::StructSet(kept, i)
    };
    Ok((instruction, next))
}

// FB 14/15 ref.test (null), 16/17 ref.cast (null), 23/24 ref.cast_desc_eq (null): a heap type.
#[tactic(auto, using(crate::proofs::Typing::tested_exits))]
pub fn tested_at(s: &[u8], at: usize, code: u64) -> Read<Instruction>
    ensures { result ≡ instruction_is (tested_at code s.now at) }
{
    let (heap, next) = type_read::heap_at(s, at)?;
    match code {
        0x14 => Ok((Instruction::RefTest(false, heap), next)),
        0x15 => Ok((Instruction::RefTest(true, heap), next)),
        0x16 => Ok((Instruction::RefCast(false, heap), next)),
        0x17 => Ok((Instruction::RefCast(true, heap), next)),
        0x23 => Ok((Instruction::RefCastDescEq(false, heap), next)),
        _ => Ok((Instruction::RefCastDescEq(true, heap), next)),
    }
}
