// The move of a numeric instruction: what run_numeric calculates of the topmost operands takes their place, and a code that the
// run does not do is trap 46.
#![tactic(auto)]

ghost use Rattle.scope.specs.Instructions.{numeric};
ghost use Rattle.run_state.specs.Planned.{PairPlans};
ghost use Rattle.run_move_numbers.specs.Operands.{OperandIs};

use run_calculated::{Calculated, Uncalculated};
use run_state::Move;
use run_value::Value;
use scope::traps;

// The operand, or null where there is none: null is of no number's kind.
fn operand(top: Option<Value>) -> Value
    ensures { OperandIs top result }
{
    match top {
        None => Value::Null,
        Some(v) => v,
    }
}

// 45 to C4
#[tactic(auto, using(crate::proofs::Numbers::numeric_exits))]
pub fn numeric_move(first: Option<Value>, second: Option<Value>, code: u8) -> Move
    ensures { PairPlans first second (numeric code) result }
{
    let topmost = operand(first);
    let under = operand(second);
    let calculated = run_numeric::calculated(code, topmost, under);
    match calculated {
        Ok(Calculated::OfOne(v)) => Move::Gives(1, v),
        Ok(Calculated::OfTwo(v)) => Move::Gives(2, v),
        Err(Uncalculated::Other) => Move::Traps(traps::OTHER_NUMERIC),
        Err(Uncalculated::Wrong) => Move::Astray,
    }
}
