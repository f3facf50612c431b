// The instructions of i32 and i64 that the run does, on values: sums and differences that wrap, and tests. Each is written and
// proved once, over the width.
#![tactic(auto)]

ghost use Rattle.std.specs.Prelude.{◌≡◌};
ghost use Rattle.scope.specs.Syntax.{i32};
ghost use Rattle.scope.specs.Integers.{int_add, int_sub};
ghost use Rattle.run_calculated.specs.Calculations.{OneIs, TwoIs};
ghost use Rattle.run_words.specs.Words.{WordTaken};
ghost use Rattle.run_integers.specs.IntegerTests.{test_of, test_bits, zero_bits};

use run_calculated::{Calculated, Calculation, Uncalculated};
use run_value::Value;
use run_words::Word;

// eq, ne, lt_s, lt_u, gt_s, gt_u, le_s, le_u, ge_s, ge_u.
#[derive(Clone, Copy)]
pub enum IntegerTest {
    Equal,
    Unequal,
    LessSigned,
    LessUnsigned,
    GreaterSigned,
    GreaterUnsigned,
    AtMostSigned,
    AtMostUnsigned,
    AtLeastSigned,
    AtLeastUnsigned,
}

// Whether a test holds of the first and the second in the order of the code: the second is the topmost.
#[tactic(auto, unfolding(scope::specs::Integers::int_less_signed, scope::specs::Integers::int_at_most_signed))]
fn holds<W: Word>(test: IntegerTest, a: W, b: W) -> bool
    ensures { result ≡ test_of test W.width (W.bits a) (W.bits b) }
{
    let s = a.top_turned();
    let t = b.top_turned();
    match test {
        IntegerTest::Equal => a == b,
        IntegerTest::Unequal => a != b,
        IntegerTest::LessSigned => s < t,
        IntegerTest::LessUnsigned => a < b,
        IntegerTest::GreaterSigned => s > t,
        IntegerTest::GreaterUnsigned => a > b,
        IntegerTest::AtMostSigned => s <= t,
        IntegerTest::AtMostUnsigned => a <= b,
        IntegerTest::AtLeastSigned => s >= t,
        IntegerTest::AtLeastUnsigned => a >= b,
    }
}

// An operand's bits; one of another kind is wrong.
fn operand<W: Word>(v: Value) -> Result<W, Uncalculated>
    ensures { WordTaken W.kind W.bits v result }
{
    W::of(v).ok_or(Uncalculated::Wrong)
}

// A comparison.
#[tactic(auto, using(crate::proofs::Exits::exits))]
pub fn compared<W: Word>(test: IntegerTest, first: Value, second: Value) -> Calculation
    ensures { TwoIs W.kind i32 (test_bits test W.width) first second result }
{
    let b = operand::<W>(first)?;
    let a = operand::<W>(second)?;
    let v = run_calculated::truth(holds(test, a, b));
    Ok(Calculated::OfTwo(v))
}

// eqz
#[tactic(auto, using(crate::proofs::Exits::exits))]
pub fn tested_zero<W: Word>(first: Value) -> Calculation
    ensures { OneIs W.kind i32 zero_bits first result }
{
    let a = operand::<W>(first)?;
    let v = run_calculated::truth(a.is_zero());
    Ok(Calculated::OfOne(v))
}

// add
#[tactic(auto, using(crate::proofs::Exits::exits))]
pub fn added<W: Word>(first: Value, second: Value) -> Calculation
    ensures { TwoIs W.kind W.kind (int_add W.width) first second result }
{
    let b = operand::<W>(first)?;
    let a = operand::<W>(second)?;
    let n = a.sum(b);
    Ok(Calculated::OfTwo(n.value()))
}

// sub
#[tactic(auto, using(crate::proofs::Exits::exits))]
pub fn subtracted<W: Word>(first: Value, second: Value) -> Calculation
    ensures { TwoIs W.kind W.kind (int_sub W.width) first second result }
{
    let b = operand::<W>(first)?;
    let a = operand::<W>(second)?;
    let n = a.difference(b);
    Ok(Calculated::OfTwo(n.value()))
}
