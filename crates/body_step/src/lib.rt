// One instruction of a body: what it does is told first, then done.
#![tactic(auto)]

ghost use Rattle.scope.specs.Bodies.{judge_instr};
ghost use Rattle.body_decoded.specs.Decoded.{instr_of};
ghost use Rattle.body_state.specs.State.{context_at, state_at};
ghost use Rattle.body_step.specs.Stepping.{Standing, SteppedAt};
ghost use Rattle.type_table.specs.View.{both_codes};
ghost use Rattle.type_hierarchy.specs.Ranged.{Ranged};

use body_immediates::Instruction;
use body_plans::Act;
use body_state::{Check, Scene, Step};

// One instruction at the place `at`: its tests, its operands, 28 and 4.
pub fn step(
    rows: &[u16],
    shared: &[u16],
    codes: &[u16],
    table: &[u8],
    work: &mut [u32],
    scene: Scene,
    check: Check,
    at: u64,
    i: Instruction,
) -> Step
    requires standing { Standing table.now work.old scene.locals check at }
    requires ranged { Ranged rows.now (both_codes shared.now codes.now) }
    ensures { let before = work.old in
        let after = work.new in
        let context = context_at rows.now (both_codes shared.now codes.now) before scene in
        let want = judge_instr context (state_at before scene.locals check) (instr_of i) in
        SteppedAt before after scene.locals at want result }
{
    let act = body_plans::act_of(rows, shared, codes, table, work, scene, check, i);
    match act {
        Act::Opens(is_loop, w) => body_frames::open(work, scene, check, is_loop, w, at),
        Act::Closes => body_end::close(rows, shared, codes, work, scene, check),
        Act::Does(planned) => body_effects::do_planned(
            rows, shared, codes, work, scene, check, planned,
        ),
    }
}
