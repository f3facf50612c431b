// A value of a run as the code carries it, and the two words by which memory holds it. A float that is no number is carried
// by its bits, in a case of its own: the language has one such float, without sign and payload.
#![tactic(auto)]

ghost use Rattle.std.specs.Prelude.{◌≡◌};
ghost use Rattle.run_value.specs.Carried.{value_kind, value_bits, with_value, SingleIs, DoubleIs, ValueIs};

use run_values::layout;
use std::num::{
    f32_from_bits_with_nan, f32_to_bits_with_nan, f64_from_bits_with_nan, f64_to_bits_with_nan,
};

// An integer; a float; a float that is no number, by its bits; null; an object, by its number.
#[derive(Clone, Copy)]
pub enum Value {
    I32(u32),
    I64(u64),
    F32(f32),
    F64(f64),
    Nan32(u32),
    Nan64(u64),
    Null,
    Object(u64),
}

// The bits of the canonical float that is no number.
pub const NAN_32: u32 = 0x7fc0_0000;

pub const NAN_64: u64 = 0x7ff8_0000_0000_0000;

// The sign's bit, which is the highest.
pub const SIGN_32: u32 = 0x8000_0000;

pub const SIGN_64: u64 = 0x8000_0000_0000_0000;

// The float with these bits.
pub fn single(bits: u32) -> Value
    ensures { SingleIs bits result }
{
    let x = f32_from_bits_with_nan(bits);
    if x.is_nan() {
        return Value::Nan32(bits);
    }
    Value::F32(x)
}

pub fn double(bits: u64) -> Value
    ensures { DoubleIs bits result }
{
    let x = f64_from_bits_with_nan(bits);
    if x.is_nan() {
        return Value::Nan64(bits);
    }
    Value::F64(x)
}

// The value of a kind with these bits; what lies above the 32 bits of a number is not looked at.
#[tactic(auto, using(crate::proofs::Exits::value_exits))]
pub fn value_of(kind: u64, bits: u64) -> Value
    ensures { ValueIs kind bits result }
{
    if kind <= layout::I32 {
        return Value::I32((bits % layout::NUMBER_LIMIT) as u32);
    }
    if kind == layout::OBJECT {
        return Value::Object(bits);
    }
    if kind == layout::NULL {
        return Value::Null;
    }
    if kind == layout::I64 {
        return Value::I64(bits);
    }
    if kind == layout::F32 {
        return single((bits % layout::NUMBER_LIMIT) as u32);
    }
    double(bits)
}

// The word of a value's kind.
#[tactic(auto, unfolding(crate::specs::Carried::value_kind))]
pub fn kind_word(v: Value) -> u64
    ensures { result ≡ value_kind v }
{
    match v {
        Value::I32(_) => layout::I32,
        Value::I64(_) => layout::I64,
        Value::F32(_) | Value::Nan32(_) => layout::F32,
        Value::F64(_) | Value::Nan64(_) => layout::F64,
        Value::Null => layout::NULL,
        Value::Object(_) => layout::OBJECT,
    }
}

// The word of its bits.
#[tactic(auto, unfolding(crate::specs::Carried::value_bits))]
pub fn bits_word(v: Value) -> u64
    ensures { result ≡ value_bits v }
{
    match v {
        Value::I32(n) | Value::Nan32(n) => u64::from(n),
        Value::I64(n) | Value::Nan64(n) | Value::Object(n) => n,
        Value::F32(x) => u64::from(f32_to_bits_with_nan(x)),
        Value::F64(x) => f64_to_bits_with_nan(x),
        Value::Null => 0,
    }
}

// Value j of memory.
pub fn put(m: &mut [u64], j: u32, v: Value)
    ensures { m.new ≡ with_value m.old j v }
{
    let kind = kind_word(v);
    let bits = bits_word(v);
    run_values::put_value(m, j, kind, bits);
}
