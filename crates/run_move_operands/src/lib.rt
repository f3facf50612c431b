// The operand under the topmost, and the moves of the instructions that only take the topmost: drop and br_if.
#![tactic(auto)]

ghost use Rattle.scope.specs.Instructions.{drop_value, br_if};
ghost use Rattle.run_state.specs.Planned.{TopPlans};
ghost use Rattle.run_move_operands.specs.Seconds.{SecondIs};

use run_state::Move;
use run_value::Value;

// The operand under the topmost.
#[tactic(auto, using(crate::proofs::UnderTop::second_exits))]
pub fn second_of(operands: &[u64], base: u32, height: u32) -> Option<Value>
    ensures { SecondIs operands.now base height result }
{
    if height == 0 {
        return None;
    }
    run_stack::top(operands, base, height - 1)
}

// drop
#[tactic(auto, using(crate::proofs::Operands::operand_exits))]
pub fn drop_move(first: Option<Value>) -> Move
    ensures { TopPlans first drop_value result }
{
    match first {
        None => Move::Astray,
        Some(_) => Move::Leaves(1),
    }
}

// br_if
#[tactic(auto, using(crate::proofs::Operands::operand_exits))]
pub fn branch_move(first: Option<Value>, label: u64) -> Move
    ensures { TopPlans first (br_if label) result }
{
    match first {
        None => Move::Astray,
        Some(v) => match v {
            Value::I32(n) => {
                if n == 0 {
                    return Move::Leaves(1);
                }
                Move::Branches(1, label)
            }
            _ => Move::Astray,
        },
    }
}
