// The numeric instructions that the run does, a line for each code with the core standard's name; any other code is trap 46,
// whatever its operands are. By value: the first operand is the topmost, the second lies under it, and null stands for one that
// is missing.
#![tactic(auto)]

ghost use Rattle.run_calculated.specs.Calculations.{CalculatedIs};
ghost use Rattle.run_numeric.specs.Between.{CalculatedBetween, first_float_test, first_result, all_codes};

use run_calculated::{Calculation, Uncalculated};
use run_float_tests::FloatTest;
use run_floats::FloatDeed;
use run_integers::IntegerTest;
use run_value::Value;

// The first code of a float's test, and the first after all tests.
const FIRST_FLOAT_TEST: u8 = 0x5B;

const FIRST_RESULT: u8 = 0x67;

fn integer_test(code: u8, first: Value, second: Value) -> Calculation
    ensures { CalculatedBetween 0 first_float_test code first second result }
{
    match code {
        // i32.eqz
        0x45 => run_integers::tested_zero::<u32>(first),
        // i32.eq
        0x46 => run_integers::compared::<u32>(IntegerTest::Equal, first, second),
        // i32.ne
        0x47 => run_integers::compared::<u32>(IntegerTest::Unequal, first, second),
        // i32.lt_s
        0x48 => run_integers::compared::<u32>(IntegerTest::LessSigned, first, second),
        // i32.lt_u
        0x49 => run_integers::compared::<u32>(IntegerTest::LessUnsigned, first, second),
        // i32.gt_s
        0x4A => run_integers::compared::<u32>(IntegerTest::GreaterSigned, first, second),
        // i32.gt_u
        0x4B => run_integers::compared::<u32>(IntegerTest::GreaterUnsigned, first, second),
        // i32.le_s
        0x4C => run_integers::compared::<u32>(IntegerTest::AtMostSigned, first, second),
        // i32.le_u
        0x4D => run_integers::compared::<u32>(IntegerTest::AtMostUnsigned, first, second),
        // i32.ge_s
        0x4E => run_integers::compared::<u32>(IntegerTest::AtLeastSigned, first, second),
        // i32.ge_u
        0x4F => run_integers::compared::<u32>(IntegerTest::AtLeastUnsigned, first, second),
        // i64.eqz
        0x50 => run_integers::tested_zero::<u64>(first),
        // i64.eq
        0x51 => run_integers::compared::<u64>(IntegerTest::Equal, first, second),
        // i64.ne
        0x52 => run_integers::compared::<u64>(IntegerTest::Unequal, first, second),
        // i64.lt_s
        0x53 => run_integers::compared::<u64>(IntegerTest::LessSigned, first, second),
        // i64.lt_u
        0x54 => run_integers::compared::<u64>(IntegerTest::LessUnsigned, first, second),
        // i64.gt_s
        0x55 => run_integers::compared::<u64>(IntegerTest::GreaterSigned, first, second),
        // i64.gt_u
        0x56 => run_integers::compared::<u64>(IntegerTest::GreaterUnsigned, first, second),
        // i64.le_s
        0x57 => run_integers::compared::<u64>(IntegerTest::AtMostSigned, first, second),
        // i64.le_u
        0x58 => run_integers::compared::<u64>(IntegerTest::AtMostUnsigned, first, second),
        // i64.ge_s
        0x59 => run_integers::compared::<u64>(IntegerTest::AtLeastSigned, first, second),
        // i64.ge_u
        0x5A => run_integers::compared::<u64>(IntegerTest::AtLeastUnsigned, first, second),
        _ => Err(Uncalculated::Other),
    }
}

fn float_test(code: u8, first: Value, second: Value) -> Calculation
    ensures { CalculatedBetween first_float_test first_result code first second result }
{
    match code {
        // f32.eq
        0x5B => run_float_tests::compared::<f32>(FloatTest::Equal, first, second),
        // f32.ne
        0x5C => run_float_tests::compared::<f32>(FloatTest::Unequal, first, second),
        // f32.lt
        0x5D => run_float_tests::compared::<f32>(FloatTest::Less, first, second),
        // f32.gt
        0x5E => run_float_tests::compared::<f32>(FloatTest::Greater, first, second),
        // f32.le
        0x5F => run_float_tests::compared::<f32>(FloatTest::AtMost, first, second),
        // f32.ge
        0x60 => run_float_tests::compared::<f32>(FloatTest::AtLeast, first, second),
        // f64.eq
        0x61 => run_float_tests::compared::<f64>(FloatTest::Equal, first, second),
        // f64.ne
        0x62 => run_float_tests::compared::<f64>(FloatTest::Unequal, first, second),
        // f64.lt
        0x63 => run_float_tests::compared::<f64>(FloatTest::Less, first, second),
        // f64.gt
        0x64 => run_float_tests::compared::<f64>(FloatTest::Greater, first, second),
        // f64.le
        0x65 => run_float_tests::compared::<f64>(FloatTest::AtMost, first, second),
        // f64.ge
        0x66 => run_float_tests::compared::<f64>(FloatTest::AtLeast, first, second),
        _ => Err(Uncalculated::Other),
    }
}

fn result(code: u8, first: Value, second: Value) -> Calculation
    ensures { CalculatedBetween first_result all_codes code first second result }
{
    match code {
        // i32.add
        0x6A => run_integers::added::<u32>(first, second),
        // i32.sub
        0x6B => run_integers::subtracted::<u32>(first, second),
        // i64.add
        0x7C => run_integers::added::<u64>(first, second),
        // i64.sub
        0x7D => run_integers::subtracted::<u64>(first, second),
        // f32.neg
        0x8C => run_floats::negated::<f32>(first),
        // f32.add
        0x92 => run_floats::reckoned::<f32>(FloatDeed::Add, first, second),
        // f32.sub
        0x93 => run_floats::reckoned::<f32>(FloatDeed::Sub, first, second),
        // f32.mul
        0x94 => run_floats::reckoned::<f32>(FloatDeed::Mul, first, second),
        // f32.div
        0x95 => run_floats::reckoned::<f32>(FloatDeed::Div, first, second),
        // f64.neg
        0x9A => run_floats::negated::<f64>(first),
        // f64.add
        0xA0 => run_floats::reckoned::<f64>(FloatDeed::Add, first, second),
        // f64.sub
        0xA1 => run_floats::reckoned::<f64>(FloatDeed::Sub, first, second),
        // f64.mul
        0xA2 => run_floats::reckoned::<f64>(FloatDeed::Mul, first, second),
        // f64.div
        0xA3 => run_floats::reckoned::<f64>(FloatDeed::Div, first, second),
        _ => Err(Uncalculated::Other),
    }
}

// What a code comes to on the two topmost operands.
#[tactic(auto, using(crate::proofs::Table::between_is))]
pub fn calculated(code: u8, first: Value, second: Value) -> Calculation
    ensures { CalculatedIs code first second result }
{
    if code < FIRST_FLOAT_TEST {
        return integer_test(code, first, second);
    }
    if code < FIRST_RESULT {
        return float_test(code, first, second);
    }
    result(code, first, second)
}
