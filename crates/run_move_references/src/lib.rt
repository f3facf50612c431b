// The moves of the instructions that look only at references among the operands: whether one is null, whether two are the same.
#![tactic(auto)]

ghost use Rattle.scope.specs.Instructions.{ref_is_null, ref_eq, ref_as_non_null};
ghost use Rattle.run_state.specs.Planned.{TopPlans, PairPlans};

use run_state::{Move, Reference};
use run_value::Value;
use scope::traps;

// ref.is_null
#[tactic(auto, using(crate::proofs::References::reference_exits))]
pub fn is_null_move(first: Option<Value>) -> Move
    ensures { TopPlans first ref_is_null result }
{
    let reference = run_state::reference_of(first);
    match reference {
        Reference::Wrong => Move::Astray,
        Reference::Null => Move::Gives(1, Value::I32(1)),
        Reference::To(_) => Move::Gives(1, Value::I32(0)),
    }
}

// ref.eq: null is the same as null, an object as itself.
#[tactic(auto, using(crate::proofs::References::eq_exits))]
pub fn eq_move(first: Option<Value>, second: Option<Value>) -> Move
    ensures { PairPlans first second ref_eq result }
{
    let one = run_state::reference_of(first);
    let other = run_state::reference_of(second);
    match one {
        Reference::Wrong => Move::Astray,
        Reference::Null => match other {
            Reference::Wrong => Move::Astray,
            Reference::Null => Move::Gives(2, Value::I32(1)),
            Reference::To(_) => Move::Gives(2, Value::I32(0)),
        },
        Reference::To(o) => match other {
            Reference::Wrong => Move::Astray,
            Reference::Null => Move::Gives(2, Value::I32(0)),
            Reference::To(q) => {
                if o == q {
                    return Move::Gives(2, Value::I32(1));
                }
                Move::Gives(2, Value::I32(0))
            }
        },
    }
}

// ref.as_non_null
#[tactic(auto, using(crate::proofs::References::reference_exits))]
pub fn as_non_null_move(first: Option<Value>) -> Move
    ensures { TopPlans first ref_as_non_null result }
{
    let reference = run_state::reference_of(first);
    match reference {
        Reference::Wrong => Move::Astray,
        Reference::Null => Move::Traps(traps::NULL),
        Reference::To(o) => Move::Gives(1, Value::Object(o)),
    }
}
