// The rules of the instructions that make a struct of defaults: struct.new_default, and with a descriptor
// struct.new_default_desc. Each field has a default (29).
#![tactic(auto)]

ghost use Rattle.std.specs.Prelude.{◌<◌, ◌^◌};
ghost use Rattle.scope.specs.Instructions.{struct_new_default, struct_new_default_desc};
ghost use Rattle.type_table.specs.View.{view, both_codes};
ghost use Rattle.body_plan_parts.specs.Planning.{Follows};
ghost use Rattle.body_plan_new_default.specs.Filled.{Defaulted};

use body_plan_parts::{GIVEN, WANTED};
use body_plan_structs::{Fields, Pair};
use body_state::{Planned, Values};
use scope::refusals;

// What struct.new_default gives where each field has a default: it takes `top`.
#[tactic(auto, using(crate::proofs::Filling::filling_exits))]
fn defaulted(shared: &[u16], codes: &[u16], first: u32, n: u32, top: u64, x: u64) -> Planned
    requires { x < 2 ^ 16 }
    ensures { Defaulted (both_codes shared.now codes.now) first n top x result }
{
    if !body_plan_defaults::all_default(shared, codes, first, n, true) {
        return Planned::Fault(refusals::NO_DEFAULT);
    }
    let made = body_plan_parts::exact_code(false, x);
    body_plan_parts::takes(top, 0, Values::Types(0, 0), made + GIVEN)
}

// struct.new_default x
#[tactic(auto, using(crate::proofs::Filling::filling_exits))]
pub fn struct_new_default(
    rows: &[u16],
    shared: &[u16],
    codes: &[u16],
    types: u16,
    x: u64,
) -> Planned
    ensures { Follows (both_codes shared.now codes.now) (view rows.now (both_codes shared.now codes.now)) types (struct_new_default x) result }
{
    let found = body_plan_structs::undescribed(rows, shared, codes, types, x);
    match found {
        Fields::Fault(number) => Planned::Fault(number),
        Fields::Are(first, n) => defaulted(shared, codes, first, n, 0, x),
    }
}

// struct.new_default_desc x
#[tactic(auto, using(crate::proofs::Filling::filling_exits))]
pub fn struct_new_default_desc(
    rows: &[u16],
    shared: &[u16],
    codes: &[u16],
    types: u16,
    x: u64,
) -> Planned
    ensures { Follows (both_codes shared.now codes.now) (view rows.now (both_codes shared.now codes.now)) types (struct_new_default_desc x) result }
{
    let found = body_plan_structs::described(rows, shared, codes, types, x);
    match found {
        Pair::Fault(number) => Planned::Fault(number),
        Pair::Are(first, n, y) => {
            let top = body_plan_parts::exact_code(true, y);
            defaulted(shared, codes, first, n, top + WANTED, x)
        }
    }
}
