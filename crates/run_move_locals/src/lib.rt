// The moves of the instructions that read or put a local.
#![tactic(auto)]

ghost use Rattle.scope.specs.Instructions.{local_get, local_set, local_tee};
ghost use Rattle.run_state.specs.Planned.{HeldPlans, LocalPlans};

use run_stack::HeldLocal;
use run_state::Move;
use run_value::Value;

// local.get
#[tactic(auto, using(crate::proofs::Locals::local_exits))]
pub fn get_move(locals: &[u64], count: u16, x: u64) -> Move
    ensures { HeldPlans locals.now count (local_get x) result }
{
    let held = run_stack::held_local(locals, count, x);
    match held {
        HeldLocal::Absent => Move::Astray,
        HeldLocal::Unset => Move::Astray,
        HeldLocal::Is(v) => Move::Gives(0, v),
    }
}

// local.set
#[tactic(auto, using(crate::proofs::Locals::local_exits))]
pub fn set_move(locals: &[u64], count: u16, first: Option<Value>, x: u64) -> Move
    ensures { LocalPlans locals.now count first (local_set x) result }
{
    match first {
        None => Move::Astray,
        Some(v) => {
            if x < count as u64 {
                return Move::SetsLocal(1, x, v);
            }
            Move::Astray
        }
    }
}

// local.tee
#[tactic(auto, using(crate::proofs::Locals::local_exits))]
pub fn tee_move(locals: &[u64], count: u16, first: Option<Value>, x: u64) -> Move
    ensures { LocalPlans locals.now count first (local_tee x) result }
{
    match first {
        None => Move::Astray,
        Some(v) => {
            if x < count as u64 {
                return Move::SetsLocal(0, x, v);
            }
            Move::Astray
        }
    }
}
