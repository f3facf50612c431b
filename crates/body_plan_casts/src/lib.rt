// The rules of the instructions that name a heap type and branch nowhere: ref.null, ref.test, ref.cast, ref.get_desc and
// ref.cast_desc_eq. The tests stand in document 01's order: 6, 23.
#![tactic(auto)]

ghost use Rattle.std.specs.Prelude.{◌≡◌};
ghost use Rattle.scope.specs.Memory.{abstract_code};
ghost use Rattle.scope.specs.Instructions.{ref_null, ref_cast, ref_get_desc, ref_cast_desc_eq};
ghost use Rattle.scope.specs.BodyRules.{top_of, descriptor_for};
ghost use Rattle.type_table.specs.View.{heap_at_code, view, both_codes};
ghost use Rattle.body_plan_parts.specs.Planning.{Follows, Anywhere};
ghost use Rattle.body_plan_casts.specs.Casts.{Tests, DescriptorFor};

use body_plan_parts::{ANY_REF, GIVEN, I32, WANTED};
use body_state::{Planned, Values};
use scope::refusals;
use type_table::HeapKind;

// The codes of the heap types with the number 0: of x and of exact x they are two more for each number.
const DEFINED: u64 = 10;

const EXACT: u64 = 11;

// ref.null
#[tactic(auto, using(crate::proofs::Casting::casting_exits))]
pub fn ref_null(types: u16, heap: u64) -> Planned
    ensures { Anywhere types (ref_null (heap_at_code heap)) result }
{
    if !type_reach::heap_in_reach(heap, types as u64) {
        return Planned::Fault(refusals::OUT_OF_REACH);
    }
    let made = body_plan_parts::ref_code(true, heap);
    body_plan_parts::takes(0, 0, Values::Types(0, 0), made + GIVEN)
}

// The number of the top of a heap type's hierarchy.
#[tactic(auto, using(crate::proofs::Targets::target_exits))]
pub fn top_of(rows: &[u16], shared: &[u16], codes: &[u16], heap: u64) -> u64
    ensures { result ≡ abstract_code (top_of (view rows.now (both_codes shared.now codes.now)) (heap_at_code heap)) }
{
    let kind = type_table::heap_of(heap);
    match kind {
        HeapKind::Abstract(a) => type_abstract::top_of(a),
        HeapKind::Defined(x) => {
            let form = type_hierarchy::kind_of(rows, shared, codes, x);
            type_abstract::top_of(form)
        }
        HeapKind::Exact(x) => {
            let form = type_hierarchy::kind_of(rows, shared, codes, x);
            type_abstract::top_of(form)
        }
    }
}

// ref.test, null or not: it takes any reference of the target's hierarchy.
#[tactic(auto, using(crate::proofs::Casting::casting_exits))]
pub fn ref_test(rows: &[u16], shared: &[u16], codes: &[u16], types: u16, heap: u64) -> Planned
    ensures { Tests (both_codes shared.now codes.now) (view rows.now (both_codes shared.now codes.now)) types (heap_at_code heap) result }
{
    if !type_reach::heap_in_reach(heap, types as u64) {
        return Planned::Fault(refusals::OUT_OF_REACH);
    }
    let top = top_of(rows, shared, codes, heap);
    let object = body_plan_parts::ref_code(true, top);
    body_plan_parts::takes(object + WANTED, 0, Values::Types(0, 0), I32 + GIVEN)
}

// ref.cast, likewise.
#[tactic(auto, using(crate::proofs::Casting::casting_exits))]
pub fn ref_cast(
    rows: &[u16],
    shared: &[u16],
    codes: &[u16],
    types: u16,
    null: bool,
    heap: u64,
) -> Planned
    ensures { Follows (both_codes shared.now codes.now) (view rows.now (both_codes shared.now codes.now)) types (ref_cast null (heap_at_code heap)) result }
{
    if !type_reach::heap_in_reach(heap, types as u64) {
        return Planned::Fault(refusals::OUT_OF_REACH);
    }
    let top = top_of(rows, shared, codes, heap);
    let object = body_plan_parts::ref_code(true, top);
    let made = body_plan_parts::ref_code(null, heap);
    body_plan_parts::takes(object + WANTED, 0, Values::Types(0, 0), made + GIVEN)
}

// The code of the heap type whose descriptor a descriptor cast to this heap type takes: exact where that is exact.
#[tactic(auto, using(crate::proofs::Targets::target_exits))]
pub fn descriptor_for(rows: &[u16], shared: &[u16], codes: &[u16], heap: u64) -> Option<u64>
    ensures { DescriptorFor (descriptor_for (view rows.now (both_codes shared.now codes.now)) (heap_at_code heap)) result }
{
    let kind = type_table::heap_of(heap);
    match kind {
        HeapKind::Abstract(_) => None,
        HeapKind::Defined(x) => {
            let descriptor = body_plan_parts::descriptor_of(rows, shared, codes, x);
            match descriptor {
                None => None,
                Some(y) => {
                    let code = DEFINED + 2 * y;
                    Some(code)
                }
            }
        }
        HeapKind::Exact(x) => {
            let descriptor = body_plan_parts::descriptor_of(rows, shared, codes, x);
            match descriptor {
                None => None,
                Some(y) => {
                    let code = EXACT + 2 * y;
                    Some(code)
                }
            }
        }
    }
}

// ref.get_desc x
#[tactic(auto, using(crate::proofs::Casting::getting_exits))]
pub fn get_desc(rows: &[u16], shared: &[u16], codes: &[u16], types: u16, x: u64) -> Planned
    ensures { Follows (both_codes shared.now codes.now) (view rows.now (both_codes shared.now codes.now)) types (ref_get_desc x) result }
{
    if types as u64 <= x {
        return Planned::Fault(refusals::OUT_OF_REACH);
    }
    let descriptor = body_plan_parts::descriptor_of(rows, shared, codes, x);
    match descriptor {
        None => Planned::Fault(refusals::BAD_STRUCT),
        Some(y) => {
            let object = x as u16;
            let its = y as u16;
            Planned::Descriptor(object, its)
        }
    }
}

// ref.cast_desc_eq: it takes a reference below any, then the target's descriptor on top.
#[tactic(auto, using(crate::proofs::Casting::casting_exits))]
pub fn cast_desc_eq(
    rows: &[u16],
    shared: &[u16],
    codes: &[u16],
    types: u16,
    null: bool,
    heap: u64,
) -> Planned
    ensures { Follows (both_codes shared.now codes.now) (view rows.now (both_codes shared.now codes.now)) types (ref_cast_desc_eq null (heap_at_code heap)) result }
{
    if !type_reach::heap_in_reach(heap, types as u64) {
        return Planned::Fault(refusals::OUT_OF_REACH);
    }
    let descriptor = descriptor_for(rows, shared, codes, heap);
    match descriptor {
        None => Planned::Fault(refusals::BAD_STRUCT),
        Some(d) => {
            let top = body_plan_parts::ref_code(true, d);
            let made = body_plan_parts::ref_code(null, heap);
            body_plan_parts::takes(
                top + WANTED,
                ANY_REF + WANTED,
                Values::Types(0, 0),
                made + GIVEN,
            )
        }
    }
}
