// The two types of a branching cast, before any label is looked at: the code of the rest, which is what the source is
// known to be where it is not of the target, and whether both are of one hierarchy.
#![tactic(auto)]

ghost use Rattle.std.specs.Prelude.{not, ◌&&◌, ◌<◌, ◌≡◌};
ghost use Rattle.scope.specs.Syntax.{ref};
ghost use Rattle.scope.specs.BodyRules.{one_hierarchy};
ghost use Rattle.type_table.specs.View.{heap_at_code, view, both_codes};
ghost use Rattle.body_plan_parts.specs.Planning.{heap_bound, CodeIs};

// The code of the rest: the source, not null where the target may be null.
pub fn rest_code(source: bool, target: bool, heap: u64) -> u64
    requires { heap < heap_bound }
    ensures { CodeIs (ref (source && not target) (heap_at_code heap)) result }
{
    if target {
        body_plan_parts::ref_code(false, heap)
    } else {
        body_plan_parts::ref_code(source, heap)
    }
}

// Whether two heap types are of one hierarchy.
pub fn one_hierarchy(rows: &[u16], shared: &[u16], codes: &[u16], source: u64, target: u64) -> bool
    ensures { result ≡ one_hierarchy (view rows.now (both_codes shared.now codes.now)) (heap_at_code source) (heap_at_code target) }
{
    let above_source = body_plan_casts::top_of(rows, shared, codes, source);
    let above_target = body_plan_casts::top_of(rows, shared, codes, target);
    above_source == above_target
}
