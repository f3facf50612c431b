// What plans are made of: the codes of reference types, and a plan that only takes and gives. The
// rules of the instructions are in the other crates body_plan_* and in body_plans.
#![tactic(auto)]

ghost use Rattle.std.specs.Prelude.{◌<◌, ◌^◌, true};
ghost use Rattle.scope.specs.Syntax.{defined, exact, ref};
ghost use Rattle.type_table.specs.View.{heap_at_code, view, both_codes};
ghost use Rattle.body_plan_parts.specs.Planning.{heap_bound, Takes, Stops, CodeIs, DescriptorOf};

use body_state::{Plain, Planned, Values};

// What a plan's `top` and `second` are beyond the code of the type that is wanted, and its `gives` beyond the code of the
// type that is given.
pub const WANTED: u64 = 3;

pub const GIVEN: u64 = 1;

// `top` and `second` where any value is wanted, or any reference.
pub const ANY_VALUE: u64 = 1;

pub const ANY_REFERENCE: u64 = 2;

// The codes of i32, of (ref null any) and of (ref null eq).
pub const I32: u64 = 0;

pub const ANY_REF: u64 = 15;

pub const EQ_REF: u64 = 17;

// A plan that takes and gives, and does nothing else.
pub fn takes(top: u64, second: u64, rest: Values, gives: u64) -> Planned
    ensures { Takes top second rest gives result }
{
    Planned::Plain(Plain {
        top: top,
        second: second,
        rest: rest,
        back: false,
        gives: gives,
        marks: 0,
        stops: false,
    })
}

// A plan that takes, and after which the stack may yield unknowns.
pub fn stops(rest: Values) -> Planned
    ensures { Stops rest result }
{
    Planned::Plain(Plain {
        top: 0,
        second: 0,
        rest: rest,
        back: false,
        gives: 0,
        marks: 0,
        stops: true,
    })
}

// The code of a reference to a heap type with a small code.
pub fn ref_code(null: bool, heap: u64) -> u64
    requires { heap < heap_bound }
    ensures { CodeIs (ref null (heap_at_code heap)) result }
{
    if null { 5 + 2 * heap } else { 4 + 2 * heap }
}

// The code of (ref null x).
pub fn defined_code(x: u64) -> u64
    requires { x < 2 ^ 16 }
    ensures { CodeIs (ref true (defined x)) result }
{
    25 + 4 * x
}

// The code of a reference to exact x.
pub fn exact_code(null: bool, x: u64) -> u64
    requires { x < 2 ^ 16 }
    ensures { CodeIs (ref null (exact x)) result }
{
    if null { 27 + 4 * x } else { 26 + 4 * x }
}

// The descriptor of a type: what the table answers, and that the number is small.
pub fn descriptor_of(rows: &[u16], shared: &[u16], codes: &[u16], x: u64) -> Option<u64>
    ensures { DescriptorOf (view rows.now (both_codes shared.now codes.now) x).descriptor result }
{
    type_table::descriptor_of(rows, shared, codes, x)
}
