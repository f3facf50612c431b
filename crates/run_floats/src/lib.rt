// The instructions of f32 and f64 that give a float, on values: add, sub, mul and div are the language's one operation each, so that
// a result is rounded once; neg turns the sign's bit. Each is written and proved once, over the format.
#![tactic(auto)]

ghost use Rattle.std.specs.Prelude.{◌≡◌, Float, to_bits};
ghost use Rattle.std.specs.Float.{Format, binary32, binary64};
ghost use Rattle.std.specs.Float.Ieee.{add, sub, mul, div, eq};
ghost use Rattle.std.specs.Ordering.{float_partial_cmp};
ghost use Rattle.std.proofs.Common.{refl};
ghost use Rattle.scope.specs.Floats.{float_neg};
ghost use Rattle.run_values.specs.Values.{width};
ghost use Rattle.run_float_bits.specs.Formats.{width_of};
ghost use Rattle.run_calculated.specs.Calculations.{OneIs, TwoIs};
ghost use Rattle.run_words.specs.Words.{WordIs, WordTaken};
ghost use Rattle.run_floats.specs.FloatDeeds.{operated, deed_bits, kind_of};
ghost use Rattle.run_floats.specs.Reals.{RealIs, CarriedIs, RealTaken};

use run_calculated::{Calculated, Calculation, Uncalculated};
use run_value::Value;
use run_words::Word;
use std::num::{
    f32_from_bits_with_nan, f32_to_bits_with_nan, f64_from_bits_with_nan, f64_to_bits_with_nan,
};
use std::ops::{Add, Div, Mul, Sub};

// What the instructions ask of f32 and of f64.
pub trait Real: Copy
    + PartialOrd
    + Add<Self, Output = Self>
    + Sub<Self, Output = Self>
    + Mul<Self, Output = Self>
    + Div<Self, Output = Self> {
    // The format, and what a number of the type is as the language's float.
    ghost format: { Format };

    ghost float: { Self → Float };

    // The bits of such a number.
    type Bits: Word;

    // An operand, if it is of the kind. One that is no number is read as the language's one such: none of its bits is asked for
    // again.
    fn of(v: Value) -> Option<Self>
        ensures { RealIs format float v result };

    // A result; one that is no number as the canonical one.
    fn value(self) -> Value
        ensures { CarriedIs format (to_bits format (float self)) result };

    // The bits of an operand, if it is of the kind: of one that is no number too, its payload kept.
    fn bits_of(v: Value) -> Option<Self::Bits>
        ensures { WordIs (kind_of format) Self.Bits.bits v result };

    fn of_bits(bits: Self::Bits) -> Value
        ensures { CarriedIs format (Self.Bits.bits bits) result };

    // The bits are of the width of a value of the kind.
    ghost width_law: { Self.Bits.width ≡ width (kind_of format) };

    // The comparisons and the operators are the language's, and each may always be used.
    ghost eq_law: { (x y : Self) → Self.eq x y ≡ eq (float x) (float y) };

    ghost order_law: { (x y : Self) → Self.partial_cmp x y ≡ float_partial_cmp (float x) (float y) };

    ghost can_add_law: { (x y : Self) → Self.can_add x y };

    ghost add_law: { (x y r : Self) → Self.add_gives x y r → float r ≡ add format (float x) (float y) };

    ghost can_sub_law: { (x y : Self) → Self.can_sub x y };

    ghost sub_law: { (x y r : Self) → Self.sub_gives x y r → float r ≡ sub format (float x) (float y) };

    ghost can_mul_law: { (x y : Self) → Self.can_mul x y };

    ghost mul_law: { (x y r : Self) → Self.mul_gives x y r → float r ≡ mul format (float x) (float y) };

    ghost can_div_law: { (x y : Self) → Self.can_div x y };

    ghost div_law: { (x y r : Self) → Self.div_gives x y r → float r ≡ div format (float x) (float y) };
}

impl Real for f32 {
    ghost format = { binary32 };

    ghost float = { λ x. x };

    type Bits = u32;

    #[tactic(auto, using(crate::proofs::Exits::reads))]
    fn of(v: Value) -> Option<f32> {
        match v {
            Value::F32(x) => Some(x),
            Value::Nan32(bits) => Some(f32_from_bits_with_nan(bits)),
            _ => None,
        }
    }

    #[tactic(auto, using(crate::proofs::Exits::reads))]
    fn value(self) -> Value {
        if self.is_nan() {
            return Value::Nan32(run_value::NAN_32);
        }
        Value::F32(self)
    }

    fn bits_of(v: Value) -> Option<u32> {
        match v {
            Value::F32(x) => Some(f32_to_bits_with_nan(x)),
            Value::Nan32(bits) => Some(bits),
            _ => None,
        }
    }

    fn of_bits(bits: u32) -> Value {
        run_value::single(bits)
    }

    ghost width_law = { refl };

    ghost eq_law = { λ x y. refl };

    ghost order_law = { λ x y. refl };

    ghost can_add_law = { λ x y. tt };

    ghost add_law = { λ x y r h. h };

    ghost can_sub_law = { λ x y. tt };

    ghost sub_law = { λ x y r h. h };

    ghost can_mul_law = { λ x y. tt };

    ghost mul_law = { λ x y r h. h };

    ghost can_div_law = { λ x y. tt };

    ghost div_law = { λ x y r h. h };
}

impl Real for f64 {
    ghost format = { binary64 };

    ghost float = { λ x. x };

    type Bits = u64;

    #[tactic(auto, using(crate::proofs::Exits::reads))]
    fn of(v: Value) -> Option<f64> {
        match v {
            Value::F64(x) => Some(x),
            Value::Nan64(bits) => Some(f64_from_bits_with_nan(bits)),
            _ => None,
        }
    }

    #[tactic(auto, using(crate::proofs::Exits::reads))]
    fn value(self) -> Value {
        if self.is_nan() {
            return Value::Nan64(run_value::NAN_64);
        }
        Value::F64(self)
    }

    fn bits_of(v: Value) -> Option<u64> {
        match v {
            Value::F64(x) => Some(f64_to_bits_with_nan(x)),
            Value::Nan64(bits) => Some(bits),
            _ => None,
        }
    }

    fn of_bits(bits: u64) -> Value {
        run_value::double(bits)
    }

    ghost width_law = { refl };

    ghost eq_law = { λ x y. refl };

    ghost order_law = { λ x y. refl };

    ghost can_add_law = { λ x y. tt };

    ghost add_law = { λ x y r h. h };

    ghost can_sub_law = { λ x y. tt };

    ghost sub_law = { λ x y r h. h };

    ghost can_mul_law = { λ x y. tt };

    ghost mul_law = { λ x y r h. h };

    ghost can_div_law = { λ x y. tt };

    ghost div_law = { λ x y r h. h };
}

// add, sub, mul, div.
#[derive(Clone, Copy)]
pub enum FloatDeed {
    Add,
    Sub,
    Mul,
    Div,
}

fn operated<F: Real>(deed: FloatDeed, x: F, y: F) -> F
    ensures { F.float result ≡ operated F.format deed (F.float x) (F.float y) }
{
    match deed {
        FloatDeed::Add => x + y,
        FloatDeed::Sub => x - y,
        FloatDeed::Mul => x * y,
        FloatDeed::Div => x / y,
    }
}

// An operand; one of another kind is wrong.
pub fn operand<F: Real>(v: Value) -> Result<F, Uncalculated>
    ensures { RealTaken F.format F.float v result }
{
    F::of(v).ok_or(Uncalculated::Wrong)
}

#[tactic(auto, using(crate::proofs::Exits::exits))]
pub fn reckoned<F: Real>(deed: FloatDeed, first: Value, second: Value) -> Calculation
    ensures { let kind = kind_of F.format in TwoIs kind kind (deed_bits deed (width_of F.format)) first second result }
{
    let y = operand::<F>(first)?;
    let x = operand::<F>(second)?;
    let z = operated(deed, x, y);
    Ok(Calculated::OfTwo(z.value()))
}

// The bits of an operand; one of another kind is wrong.
fn pattern<F: Real>(v: Value) -> Result<F::Bits, Uncalculated>
    ensures { WordTaken (kind_of F.format) F.Bits.bits v result }
{
    F::bits_of(v).ok_or(Uncalculated::Wrong)
}

// neg: of one that is no number too, its payload kept.
#[tactic(auto, using(crate::proofs::Exits::exits, run_words::proofs::Exits::no_one))]
pub fn negated<F: Real>(first: Value) -> Calculation
    ensures { let kind = kind_of F.format in OneIs kind kind (float_neg (width_of F.format)) first result }
{
    let bits = pattern::<F>(first)?;
    let turned = bits.top_turned();
    Ok(Calculated::OfOne(F::of_bits(turned)))
}
