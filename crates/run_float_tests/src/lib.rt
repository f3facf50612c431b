// The comparisons of floats, on values: the language's own. Each is written and proved once, over the format.
#![tactic(auto)]

ghost use Rattle.std.specs.Prelude.{◌≡◌};
ghost use Rattle.scope.specs.Syntax.{i32};
ghost use Rattle.run_float_bits.specs.Formats.{width_of};
ghost use Rattle.run_calculated.specs.Calculations.{TwoIs};
ghost use Rattle.run_floats.specs.FloatDeeds.{kind_of};
ghost use Rattle.run_float_tests.specs.FloatTests.{holds_of, float_test_bits};

use run_calculated::{Calculated, Calculation};
use run_floats::Real;
use run_value::Value;

// eq, ne, lt, gt, le, ge.
#[derive(Clone, Copy)]
pub enum FloatTest {
    Equal,
    Unequal,
    Less,
    Greater,
    AtMost,
    AtLeast,
}

#[tactic(auto, using(crate::proofs::Exits::tests))]
fn holds<F: Real>(test: FloatTest, x: F, y: F) -> bool
    ensures { result ≡ holds_of test (F.float x) (F.float y) }
{
    match test {
        FloatTest::Equal => x == y,
        FloatTest::Unequal => x != y,
        FloatTest::Less => x < y,
        FloatTest::Greater => y < x,
        FloatTest::AtMost => x <= y,
        FloatTest::AtLeast => y <= x,
    }
}

#[tactic(auto, using(crate::proofs::Exits::exits))]
pub fn compared<F: Real>(test: FloatTest, first: Value, second: Value) -> Calculation
    ensures { TwoIs (kind_of F.format) i32 (float_test_bits test (width_of F.format)) first second result }
{
    let y = run_floats::operand::<F>(first)?;
    let x = run_floats::operand::<F>(second)?;
    let holds = holds(test, x, y);
    let v = run_calculated::truth(holds);
    Ok(Calculated::OfTwo(v))
}
