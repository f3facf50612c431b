// The rules of the instructions that name a local: local.get, local.set and local.tee. The tests stand in document 01's order:
// 21, 22.
#![tactic(auto)]

ghost use Rattle.std.specs.Prelude.{◌+◌};
ghost use Rattle.scope.specs.Instructions.{local_get, local_set, local_tee};
ghost use Rattle.type_table.specs.View.{codes_at};
ghost use Rattle.body_state.specs.State.{val_at_word, sets_at};
ghost use Rattle.body_plan_locals.specs.Uses.{Uses, Sets};

use body_plan_parts::{GIVEN, WANTED};
use body_state::{Plain, Planned, Values};
use scope::refusals;

// local.get x
#[tactic(auto, using(crate::proofs::Locals::local_exits))]
pub fn local_get(work: &[u32], locals: u16, depth: u16, x: u64) -> Planned
    ensures { Uses (codes_at val_at_word work.now 0 locals) (sets_at work.now (depth + 1) 0 locals) (local_get x) result }
{
    let local = body_state::local_of(work, locals, x);
    match local {
        None => Planned::Fault(refusals::ABSENT),
        Some(code) => {
            if !body_state::is_set(work, depth as u32 + 1, x as u32) {
                return Planned::Fault(refusals::NOT_SET);
            }
            body_plan_parts::takes(0, 0, Values::Types(0, 0), code + GIVEN)
        }
    }
}

// local.set x
#[tactic(auto, using(crate::proofs::Locals::local_exits))]
pub fn local_set(work: &[u32], locals: u16, x: u64) -> Planned
    ensures { Sets (codes_at val_at_word work.now 0 locals) (local_set x) result }
{
    let local = body_state::local_of(work, locals, x);
    match local {
        None => Planned::Fault(refusals::ABSENT),
        Some(code) => {
            let top = code + WANTED;
            let marks = x + 1;
            Planned::Plain(Plain {
                top: top,
                second: 0,
                rest: Values::Types(0, 0),
                back: false,
                gives: 0,
                marks: marks,
                stops: false,
            })
        }
    }
}

// local.tee x
#[tactic(auto, using(crate::proofs::Locals::local_exits))]
pub fn local_tee(work: &[u32], locals: u16, x: u64) -> Planned
    ensures { Sets (codes_at val_at_word work.now 0 locals) (local_tee x) result }
{
    let local = body_state::local_of(work, locals, x);
    match local {
        None => Planned::Fault(refusals::ABSENT),
        Some(code) => {
            let top = code + WANTED;
            let gives = code + GIVEN;
            let marks = x + 1;
            Planned::Plain(Plain {
                top: top,
                second: 0,
                rest: Values::Types(0, 0),
                back: false,
                gives: gives,
                marks: marks,
                stops: false,
            })
        }
    }
}
