// The fields of a struct type in reach, and whether it has a descriptor: what the rules of the instructions on structs ask
// first. The tests stand in document 01's order: 6, 23.
#![tactic(auto)]

ghost use Rattle.type_table.specs.View.{view, both_codes};
ghost use Rattle.body_plan_structs.specs.Structs.{StructOf, Undescribed, Described};

use scope::refusals;
use type_table::Shape;

// Where the codes of a struct's fields start and how many there are; or a refusal's number.
#[derive(Clone, Copy)]
pub enum Fields {
    Fault(u64),
    Are(u32, u32),
}

// The same, and the number of the type's descriptor.
#[derive(Clone, Copy)]
pub enum Pair {
    Fault(u64),
    Are(u32, u32, u64),
}

// The fields of a type in reach that is a struct.
#[tactic(auto, using(crate::proofs::Finding::finding_exits))]
pub fn struct_of(rows: &[u16], shared: &[u16], codes: &[u16], types: u16, x: u64) -> Fields
    ensures { StructOf (both_codes shared.now codes.now) (view rows.now (both_codes shared.now codes.now)) types x result }
{
    if x < types as u64 {
        let shape = type_table::shape_of(rows, shared, codes, x);
        match shape {
            Shape::Struct(first, n) => Fields::Are(first, n),
            Shape::Func(_, _, _, _) => Fields::Fault(refusals::BAD_STRUCT),
        }
    } else {
        Fields::Fault(refusals::OUT_OF_REACH)
    }
}

// The fields of a struct without a descriptor.
#[tactic(auto, using(crate::proofs::Describing::describing_exits))]
pub fn undescribed(rows: &[u16], shared: &[u16], codes: &[u16], types: u16, x: u64) -> Fields
    ensures { Undescribed (both_codes shared.now codes.now) (view rows.now (both_codes shared.now codes.now)) types x result }
{
    let found = struct_of(rows, shared, codes, types, x);
    match found {
        Fields::Fault(number) => Fields::Fault(number),
        Fields::Are(first, n) => {
            let descriptor = body_plan_parts::descriptor_of(rows, shared, codes, x);
            match descriptor {
                None => Fields::Are(first, n),
                Some(_) => Fields::Fault(refusals::BAD_STRUCT),
            }
        }
    }
}

// The fields of a struct with a descriptor, and that descriptor.
#[tactic(auto, using(crate::proofs::Describing::describing_exits))]
pub fn described(rows: &[u16], shared: &[u16], codes: &[u16], types: u16, x: u64) -> Pair
    ensures { Described (both_codes shared.now codes.now) (view rows.now (both_codes shared.now codes.now)) types x result }
{
    let found = struct_of(rows, shared, codes, types, x);
    match found {
        Fields::Fault(number) => Pair::Fault(number),
        Fields::Are(first, n) => {
            let descriptor = body_plan_parts::descriptor_of(rows, shared, codes, x);
            match descriptor {
                None => Pair::Fault(refusals::BAD_STRUCT),
                Some(y) => Pair::Are(first, n, y),
            }
        }
    }
}
