// What a numeric instruction comes to, by value: no memory is met here.
#![tactic(auto)]

ghost use Rattle.run_calculated.specs.Calculations.{TruthIs};

use run_value::Value;

// What a numeric instruction comes to: a result in place of the topmost operand, or in place of the two topmost.
#[derive(Clone, Copy)]
pub enum Calculated {
    OfOne(Value),
    OfTwo(Value),
}

// Why there is none: a code that the run does not do (trap 46); an operand that is missing or of another kind, which an accepted
// body never has.
#[derive(Clone, Copy)]
pub enum Uncalculated {
    Other,
    Wrong,
}

pub type Calculation = Result<Calculated, Uncalculated>;

// A test's result.
pub fn truth(holds: bool) -> Value
    ensures { TruthIs holds result }
{
    Value::I32(u32::from(holds))
}
