// The end of a frame: its results from the top, then nothing is left (28), and in the frame around it they are operands.
#![tactic(auto)]

ghost use Rattle.scope.specs.Bodies.{judge_instr};
ghost use Rattle.scope.specs.Instructions.{end};
ghost use Rattle.body_state.specs.State.{context_at, state_at, values_of, Upright, Stepped};
ghost use Rattle.body_end.specs.Ends.{EndsWith, Inner, stepped_out};
ghost use Rattle.type_table.specs.View.{both_codes};
ghost use Rattle.type_hierarchy.specs.Ranged.{Ranged};

use body_operands::Left;
use body_state::{Check, Scene, Step, Values};
use scope::refusals;

// Whether a frame may end: its results are there and nothing else; or the refusal's number.
#[derive(Clone, Copy)]
pub enum End {
    Fine,
    Fault(u64),
}

// The results from the top (31, 20), then nothing is left (28).
fn end_with(
    rows: &[u16],
    shared: &[u16],
    codes: &[u16],
    work: &[u32],
    list: Values,
    base: u32,
    height: u32,
    dead: bool,
) -> End
    requires { Ranged rows.now (both_codes shared.now codes.now) }
    ensures { EndsWith rows.now (both_codes shared.now codes.now) work.now list base height dead result }
{
    let taken = body_operands::take_list(rows, shared, codes, work, list, base, height, dead);
    match taken {
        Left::Fault(number) => End::Fault(number),
        Left::Is(left) => {
            if left == 0 {
                return End::Fine;
            }
            End::Fault(refusals::VALUES_LEFT)
        }
    }
}

// Back in the frame around frame m, the innermost: its results are operands there. "Sets inside a block are forgotten at
// its end": a local that was set in frame m keeps its stamp, and no open frame has it.
fn step_out(
    shared: &[u16],
    codes: &[u16],
    work: &mut [u32],
    locals: u16,
    check: Check,
    m: u32,
    list: Values,
) -> Step
    requires { Inner work.old locals check m }
    ensures { let before = work.old in
        let after = work.new in
        let want = stepped_out before locals check.depth (values_of (both_codes shared.now codes.now) list) in
        Stepped before after locals check.depth want result }
{
    let depth = check.depth;
    let base = body_state::frame_word(work, m, body_state::BASE) as u32;
    let height = body_state::frame_word(work, m, body_state::HEIGHT) as u32;
    let dead = body_state::frame_word(work, m, body_state::DEAD);
    let given = body_push::give(shared, codes, work, list, true, 0, base, height);
    match given {
        None => Step::Fault(refusals::OVERSIZE),
        Some(high) => Step::On(Check {
            depth: depth - 1,
            base: base,
            height: high,
            dead: dead == 1,
        }),
    }
}

// The end of the innermost frame; of the function's own, the body is finished.
pub fn close(
    rows: &[u16],
    shared: &[u16],
    codes: &[u16],
    work: &mut [u32],
    scene: Scene,
    check: Check,
) -> Step
    requires upright { Upright work.old scene.locals check }
    requires ranged { Ranged rows.now (both_codes shared.now codes.now) }
    ensures { let before = work.old in
        let after = work.new in
        let context = context_at rows.now (both_codes shared.now codes.now) before scene in
        let want = judge_instr context (state_at before scene.locals check) end in
        Stepped before after scene.locals check.depth want result }
{
    let depth = check.depth;
    let base = check.base;
    let height = check.height;
    let dead = check.dead;
    let locals = scene.locals;
    if depth == 0 {
        let first = scene.first;
        let n = scene.results;
        let ended = end_with(
            rows,
            shared,
            codes,
            work,
            Values::Types(first, n),
            base,
            height,
            dead,
        );
        match ended {
            End::Fault(number) => {
                return Step::Fault(number);
            }
            End::Fine => {
                return Step::Finished;
            }
        }
    }
    let m = depth as u32 + 1;
    let list = body_state::results_of(work, m);
    let ended = end_with(rows, shared, codes, work, list, base, height, dead);
    match ended {
        End::Fault(number) => Step::Fault(number),
        End::Fine => step_out(shared, codes, work, locals, check, m, list),
    }
}
