// The rules of the instructions that go to a field of a struct: struct.get and struct.set. The tests stand in document
// 01's order: 6, 23, 24.
#![tactic(auto)]

ghost use Rattle.scope.specs.Instructions.{struct_get, struct_set};
ghost use Rattle.type_table.specs.View.{view, both_codes};
ghost use Rattle.body_plan_parts.specs.Planning.{Follows};
ghost use Rattle.body_plan_fields.specs.OneField.{FieldOf};

use body_plan_parts::{GIVEN, WANTED};
use body_plan_structs::Fields;
use body_state::{Planned, Values};
use scope::refusals;

// A field's code, or a refusal's number.
#[derive(Clone, Copy)]
pub enum Field {
    Fault(u64),
    Is(u64),
}

// A field of a type in reach.
#[tactic(auto, using(crate::proofs::Going::found_exits))]
pub fn field_of(rows: &[u16], shared: &[u16], codes: &[u16], types: u16, x: u64, i: u64) -> Field
    ensures { FieldOf (view rows.now (both_codes shared.now codes.now)) types x i result }
{
    let found = body_plan_structs::struct_of(rows, shared, codes, types, x);
    match found {
        Fields::Fault(number) => Field::Fault(number),
        Fields::Are(first, n) => {
            if i < n as u64 {
                let code = type_table::code_word(shared, codes, first as u64 + i);
                return Field::Is(code);
            }
            Field::Fault(refusals::BAD_STRUCT)
        }
    }
}

// struct.get x i
#[tactic(auto, using(crate::proofs::Going::field_exits))]
pub fn struct_get(
    rows: &[u16],
    shared: &[u16],
    codes: &[u16],
    types: u16,
    x: u64,
    i: u64,
) -> Planned
    ensures { Follows (both_codes shared.now codes.now) (view rows.now (both_codes shared.now codes.now)) types (struct_get x i) result }
{
    let found = field_of(rows, shared, codes, types, x, i);
    match found {
        Field::Fault(number) => Planned::Fault(number),
        Field::Is(field) => {
            let object = body_plan_parts::defined_code(x);
            body_plan_parts::takes(object + WANTED, 0, Values::Types(0, 0), field / 2 + GIVEN)
        }
    }
}

// struct.set x i
#[tactic(auto, using(crate::proofs::Going::field_exits))]
pub fn struct_set(
    rows: &[u16],
    shared: &[u16],
    codes: &[u16],
    types: u16,
    x: u64,
    i: u64,
) -> Planned
    ensures { Follows (both_codes shared.now codes.now) (view rows.now (both_codes shared.now codes.now)) types (struct_set x i) result }
{
    let found = field_of(rows, shared, codes, types, x, i);
    match found {
        Field::Fault(number) => Planned::Fault(number),
        Field::Is(field) => {
            if field % 2 == 1 {
                let object = body_plan_parts::defined_code(x);
                return body_plan_parts::takes(
                    field / 2 + WANTED,
                    object + WANTED,
                    Values::Types(0, 0),
                    0,
                );
            }
            Planned::Fault(refusals::FIELD_FIXED)
        }
    }
}
