// The rules of the instructions that make a struct of the fields on the stack: struct.new, and with a descriptor
// struct.new_desc, which takes a reference to exactly the type's descriptor before the fields.
#![tactic(auto)]

ghost use Rattle.scope.specs.Instructions.{struct_new, struct_new_desc};
ghost use Rattle.type_table.specs.View.{view, both_codes};
ghost use Rattle.body_plan_parts.specs.Planning.{Follows};

use body_plan_parts::{GIVEN, WANTED};
use body_plan_structs::{Fields, Pair};
use body_state::{Planned, Values};

// struct.new x
#[tactic(auto, using(crate::proofs::Making::making_exits))]
pub fn struct_new(rows: &[u16], shared: &[u16], codes: &[u16], types: u16, x: u64) -> Planned
    ensures { Follows (both_codes shared.now codes.now) (view rows.now (both_codes shared.now codes.now)) types (struct_new x) result }
{
    let found = body_plan_structs::undescribed(rows, shared, codes, types, x);
    match found {
        Fields::Fault(number) => Planned::Fault(number),
        Fields::Are(first, n) => {
            let made = body_plan_parts::exact_code(false, x);
            body_plan_parts::takes(0, 0, Values::Fields(first, n), made + GIVEN)
        }
    }
}

// struct.new_desc x
#[tactic(auto, using(crate::proofs::Making::making_exits))]
pub fn struct_new_desc(rows: &[u16], shared: &[u16], codes: &[u16], types: u16, x: u64) -> Planned
    ensures { Follows (both_codes shared.now codes.now) (view rows.now (both_codes shared.now codes.now)) types (struct_new_desc x) result }
{
    let found = body_plan_structs::described(rows, shared, codes, types, x);
    match found {
        Pair::Fault(number) => Planned::Fault(number),
        Pair::Are(first, n, y) => {
            let top = body_plan_parts::exact_code(true, y);
            let made = body_plan_parts::exact_code(false, x);
            body_plan_parts::takes(top + WANTED, 0, Values::Fields(first, n), made + GIVEN)
        }
    }
}
