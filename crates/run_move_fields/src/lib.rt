// The moves of the instructions that look into an object: struct.get, struct.set and ref.get_desc.
#![tactic(auto)]

ghost use Rattle.scope.specs.Instructions.{struct_get, struct_set, ref_get_desc};
ghost use Rattle.run_state.specs.Planned.{FieldPlans, SetPlans};

use run_state::{Move, Reference};
use run_value::Value;
use scope::traps::NULL as NULL_USED;

// struct.get x i
#[tactic(auto, using(crate::proofs::Fields::field_exits))]
pub fn get_field_move(
    objects: &[u16],
    cells: &[u64],
    n: u32,
    first: Option<Value>,
    x: u64,
    i: u64,
) -> Move
    ensures { FieldPlans objects.now cells.now n first (struct_get x i) result }
{
    let reference = run_state::reference_of(first);
    match reference {
        Reference::Wrong => Move::Astray,
        Reference::Null => Move::Traps(NULL_USED),
        Reference::To(o) => {
            if n as u64 <= o {
                return Move::Astray;
            }
            let held = run_objects::held_field(objects, cells, o as u32, i);
            match held {
                None => Move::Astray,
                Some(v) => Move::Gives(1, v),
            }
        }
    }
}

// struct.set x i
#[tactic(auto, using(crate::proofs::Fields::field_exits))]
pub fn set_field_move(
    objects: &[u16],
    cells: &[u64],
    n: u32,
    first: Option<Value>,
    second: Option<Value>,
    x: u64,
    i: u64,
) -> Move
    ensures { SetPlans objects.now cells.now n first second (struct_set x i) result }
{
    let Some(v) = first else {
        return Move::Astray;
    };
    let reference = run_state::reference_of(second);
    match reference {
        Reference::Wrong => Move::Astray,
        Reference::Null => Move::Traps(NULL_USED),
        Reference::To(o) => {
            if n as u64 <= o {
                return Move::Astray;
            }
            let held = run_objects::held_field(objects, cells, o as u32, i);
            match held {
                None => Move::Astray,
                Some(_) => Move::SetsField(2, o as u32, i as u32, v),
            }
        }
    }
}

// ref.get_desc x
#[tactic(auto, using(crate::proofs::Fields::field_exits))]
pub fn get_descriptor_move(
    objects: &[u16],
    cells: &[u64],
    n: u32,
    first: Option<Value>,
    x: u64,
) -> Move
    ensures { FieldPlans objects.now cells.now n first (ref_get_desc x) result }
{
    let reference = run_state::reference_of(first);
    match reference {
        Reference::Wrong => Move::Astray,
        Reference::Null => Move::Traps(NULL_USED),
        Reference::To(o) => {
            if n as u64 <= o {
                return Move::Astray;
            }
            let link = run_objects::descriptor_of(objects, o as u32);
            match link {
                None => Move::Astray,
                Some(d) => Move::Gives(1, Value::Object(d)),
            }
        }
    }
}
