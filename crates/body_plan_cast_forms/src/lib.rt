// The two forms of a branching cast: one carries the target to the label and falls through with the rest, the other the
// other way round. Source and target are of one hierarchy (25).
#![tactic(auto)]

ghost use Rattle.type_table.specs.View.{view, both_codes};
ghost use Rattle.type_hierarchy.specs.Ranged.{Ranged};
ghost use Rattle.body_plan_cast_forms.specs.Forms.{Low, FormCarries, Casts};

use body_state::{Planned, Values};
use scope::refusals;

// A reference type: whether it may be null, and its heap type's code.
#[derive(Clone, Copy)]
pub struct Reference {
    pub null: bool,
    pub heap: u64,
}

// The plain form carries the target and falls through with the rest, the fail form the other way round.
#[tactic(auto, using(crate::proofs::Sides::form_exits))]
fn form_carries(
    rows: &[u16],
    shared: &[u16],
    codes: &[u16],
    first: u64,
    source: Reference,
    target: Reference,
    fail: bool,
    label: Values,
) -> Planned
    requires low { Low source.heap target.heap }
    requires ranged { Ranged rows.now (both_codes shared.now codes.now) }
    ensures { FormCarries (both_codes shared.now codes.now) (view rows.now (both_codes shared.now codes.now)) first source target fail label result }
{
    let from = body_plan_parts::ref_code(source.null, source.heap);
    let to = body_plan_parts::ref_code(target.null, target.heap);
    let rest = body_plan_rest::rest_code(source.null, target.null, source.heap);
    if fail {
        return body_plan_carried::carries(rows, shared, codes, first, from, rest, to, label);
    }
    body_plan_carried::carries(rows, shared, codes, first, from, to, rest, label)
}

// A branching cast's rule: source and target are of one hierarchy, and the label takes what is carried.
#[tactic(auto, using(crate::proofs::Sides::cast_exits))]
pub fn casts(
    rows: &[u16],
    shared: &[u16],
    codes: &[u16],
    first: u64,
    source: Reference,
    target: Reference,
    fail: bool,
    label: Values,
) -> Planned
    requires low { Low source.heap target.heap }
    requires ranged { Ranged rows.now (both_codes shared.now codes.now) }
    ensures { Casts (both_codes shared.now codes.now) (view rows.now (both_codes shared.now codes.now)) first source target fail label result }
{
    let related = body_plan_rest::one_hierarchy(rows, shared, codes, source.heap, target.heap);
    if !related {
        return Planned::Fault(refusals::BAD_BRANCH);
    }
    form_carries(rows, shared, codes, first, source, target, fail, label)
}
