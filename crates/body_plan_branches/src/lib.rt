// The rules of the branching casts. The tests stand in document 01's order: 6, 21, 23, 25.
#![tactic(auto)]

ghost use Rattle.type_table.specs.View.{view, both_codes};
ghost use Rattle.type_hierarchy.specs.Ranged.{Ranged};
ghost use Rattle.body_plan_labels.specs.Labels.{labels_at};
ghost use Rattle.body_plan_cast_forms.specs.Forms.{cast_between};
ghost use Rattle.body_plan_branches.specs.Branches.{cast_op, desc_op, CastLabel, Branching};

use body_plan_cast_forms::Reference;
use body_plan_parts::WANTED;
use body_state::{Planned, Scene, Values};
use scope::refusals;

// The types of a label in a branching cast's reach, or a refusal's number.
#[derive(Clone, Copy)]
pub enum Target {
    Fault(u64),
    Is(Values),
}

// The types of a branching cast's label, where its heap types are in reach.
#[tactic(auto, using(crate::proofs::Casting::target_exits))]
fn cast_label(work: &[u32], scene: Scene, depth: u16, l: u64, source: u64, target: u64) -> Target
    ensures { CastLabel work.now scene depth l source target result }
{
    let types = scene.types;
    if !type_reach::heap_in_reach(source, types as u64) {
        return Target::Fault(refusals::OUT_OF_REACH);
    }
    if !type_reach::heap_in_reach(target, types as u64) {
        return Target::Fault(refusals::OUT_OF_REACH);
    }
    let label = body_plan_labels::label_of(work, scene, depth, l);
    match label {
        None => Target::Fault(refusals::ABSENT),
        Some(values) => Target::Is(values),
    }
}

// br_on_cast and br_on_cast_fail.
#[tactic(auto, using(crate::proofs::Casting::branch_exits))]
pub fn br_on_cast(
    rows: &[u16],
    shared: &[u16],
    codes: &[u16],
    work: &[u32],
    scene: Scene,
    depth: u16,
    l: u64,
    source: Reference,
    target: Reference,
    fail: bool,
) -> Planned
    requires { Ranged rows.now (both_codes shared.now codes.now) }
    ensures { let types = view rows.now (both_codes shared.now codes.now) in
        let labels = labels_at (both_codes shared.now codes.now) work.now scene depth in
        let cast = cast_op fail (cast_between l source target) in
        Branching (both_codes shared.now codes.now) types scene.types labels cast result }
{
    let label = cast_label(work, scene, depth, l, source.heap, target.heap);
    match label {
        Target::Fault(number) => Planned::Fault(number),
        Target::Is(values) => body_plan_cast_forms::casts(
            rows, shared, codes, 0, source, target, fail, values,
        ),
    }
}

// br_on_cast_desc_eq and br_on_cast_desc_eq_fail: the target's descriptor is taken first.
#[tactic(auto, using(crate::proofs::Casting::branch_exits))]
pub fn br_on_cast_desc(
    rows: &[u16],
    shared: &[u16],
    codes: &[u16],
    work: &[u32],
    scene: Scene,
    depth: u16,
    l: u64,
    source: Reference,
    target: Reference,
    fail: bool,
) -> Planned
    requires { Ranged rows.now (both_codes shared.now codes.now) }
    ensures { let types = view rows.now (both_codes shared.now codes.now) in
        let labels = labels_at (both_codes shared.now codes.now) work.now scene depth in
        let cast = desc_op fail (cast_between l source target) in
        Branching (both_codes shared.now codes.now) types scene.types labels cast result }
{
    let label = cast_label(work, scene, depth, l, source.heap, target.heap);
    match label {
        Target::Fault(number) => Planned::Fault(number),
        Target::Is(values) => {
            let descriptor = body_plan_casts::descriptor_for(rows, shared, codes, target.heap);
            match descriptor {
                None => Planned::Fault(refusals::BAD_STRUCT),
                Some(d) => {
                    let top = body_plan_parts::ref_code(true, d);
                    body_plan_cast_forms::casts(
                        rows,
                        shared,
                        codes,
                        top + WANTED,
                        source,
                        target,
                        fail,
                        values,
                    )
                }
            }
        }
    }
}
