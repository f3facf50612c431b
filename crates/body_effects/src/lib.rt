// What a plan does: it takes operands from the top (31, 20), then gives, within the sizes (4), and sets a local.
#![tactic(auto)]

ghost use Rattle.scope.specs.BodyRules.{and_ruled};
ghost use Rattle.scope.specs.Bodies.{within_operands, do_plan};
ghost use Rattle.body_state.specs.State.{stack, plain_of, planned_of, context_at, state_at, Upright, Stepped};
ghost use Rattle.body_effects.specs.Effects.{after_plain};
ghost use Rattle.type_table.specs.View.{both_codes};
ghost use Rattle.type_hierarchy.specs.Ranged.{Ranged};

use body_operands::Left;
use body_state::{Check, Plain, Planned, Scene, Step};
use scope::refusals;

// The operands are taken, and `left` of the frame's stay: the plan's values are given, and its local is set.
fn give_plain(
    shared: &[u16],
    codes: &[u16],
    work: &mut [u32],
    locals: u16,
    check: Check,
    plan: Plain,
    left: u32,
) -> Step
    requires { Upright work.old locals check }
    ensures { let before = work.old in
        let after = work.new in
        let state = state_at before locals check in
        let planned = after_plain (both_codes shared.now codes.now) state plan (stack before check.base left) in
        Stepped before after locals check.depth (within_operands planned) result }
{
    let depth = check.depth;
    let base = check.base;
    let dead = check.dead;
    let marks = plan.marks;
    let stops = plan.stops;
    let m = depth as u32 + 1;
    if stops {
        body_marks::mark(work, locals, m, marks);
        return Step::On(Check {
            depth: depth,
            base: base,
            height: 0,
            dead: true,
        });
    }
    let rest = plan.rest;
    let back = plan.back;
    let gives = plan.gives;
    let given = body_push::give(shared, codes, work, rest, back, gives, base, left);
    match given {
        None => Step::Fault(refusals::OVERSIZE),
        Some(high) => {
            body_marks::mark(work, locals, m, marks);
            Step::On(Check {
                depth: depth,
                base: base,
                height: high,
                dead: dead,
            })
        }
    }
}

fn do_plain(
    rows: &[u16],
    shared: &[u16],
    codes: &[u16],
    work: &mut [u32],
    scene: Scene,
    check: Check,
    plan: Plain,
) -> Step
    requires upright { Upright work.old scene.locals check }
    requires ranged { Ranged rows.now (both_codes shared.now codes.now) }
    ensures { let before = work.old in
        let after = work.new in
        let context = context_at rows.now (both_codes shared.now codes.now) before scene in
        let state = state_at before scene.locals check in
        let want = do_plan context state (plain_of (both_codes shared.now codes.now) plan) in
        Stepped before after scene.locals check.depth want result }
{
    let locals = scene.locals;
    let base = check.base;
    let height = check.height;
    let dead = check.dead;
    let top = plan.top;
    let second = plan.second;
    let rest = plan.rest;
    let taken = body_operands::take_plan(
        rows, shared, codes, work, top, second, rest, base, height, dead,
    );
    match taken {
        Left::Fault(number) => Step::Fault(number),
        Left::Is(left) => give_plain(shared, codes, work, locals, check, plan, left),
    }
}

// What a plan does, or its refusal's number.
pub fn do_planned(
    rows: &[u16],
    shared: &[u16],
    codes: &[u16],
    work: &mut [u32],
    scene: Scene,
    check: Check,
    planned: Planned,
) -> Step
    requires upright { Upright work.old scene.locals check }
    requires ranged { Ranged rows.now (both_codes shared.now codes.now) }
    ensures { let before = work.old in
        let after = work.new in
        let context = context_at rows.now (both_codes shared.now codes.now) before scene in
        let state = state_at before scene.locals check in
        let want = and_ruled (planned_of (both_codes shared.now codes.now) planned) (do_plan context state) in
        Stepped before after scene.locals check.depth want result }
{
    match planned {
        Planned::Fault(number) => Step::Fault(number),
        Planned::NonNull => body_references::do_non_null(rows, shared, codes, work, scene, check),
        Planned::Descriptor(x, y) => body_references::do_descriptor(
            rows, shared, codes, work, scene, check, x, y,
        ),
        Planned::Plain(plan) => do_plain(rows, shared, codes, work, scene, check, plan),
    }
}
