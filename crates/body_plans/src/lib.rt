// The rule of each instruction: its tests in document 01's order (6, 21, 23, 24, 25, 29, 22), then what it takes and gives.
// Nothing is written here. Each answer is that of scope's BodyRules.antt over what the table and the scratch say. The plans
// of locals, numbers, structs, casts, labels and branches stand in the crates body_plan_*; this is the dispatch over all instructions.
#![tactic(auto)]

ghost use Rattle.std.specs.Prelude.{◌≡◌};
ghost use Rattle.scope.specs.Bodies.{judge_instr};
ghost use Rattle.body_numeric.specs.Entries.{Tabled};
ghost use Rattle.body_state.specs.State.{context_at, state_at};
ghost use Rattle.body_decoded.specs.Decoded.{instr_of};
ghost use Rattle.body_plans.specs.Acts.{act_of};
ghost use Rattle.type_table.specs.View.{both_codes};
ghost use Rattle.type_hierarchy.specs.Ranged.{Ranged};

use body_immediates::Instruction;
use body_plan_cast_forms::Reference;
use body_plan_parts::{ANY_REFERENCE, ANY_VALUE, EQ_REF, GIVEN, I32, WANTED};
use body_state::{Check, Planned, Scene, Values};

// What an instruction does: it opens a block or, where the bool says so, a loop, with that result (0 none, else one more
// than its code); it closes the innermost frame; or it has a plan.
#[derive(Clone, Copy)]
pub enum Act {
    Opens(bool, u64),
    Closes,
    Does(Planned),
}

// What an instruction does, where the check stands.
#[tactic(auto, using(crate::proofs::Arms::arm_exits))]
pub fn act_of(
    rows: &[u16],
    shared: &[u16],
    codes: &[u16],
    table: &[u8],
    work: &[u32],
    scene: Scene,
    check: Check,
    i: Instruction,
) -> Act
    requires tabled { Tabled table.now }
    requires ranged { Ranged rows.now (both_codes shared.now codes.now) }
    ensures { let context = context_at rows.now (both_codes shared.now codes.now) work.now scene in
        let state = state_at work.now scene.locals check in
        act_of (both_codes shared.now codes.now) context state result ≡ judge_instr context state (instr_of i) }
{
    let types = scene.types;
    let locals = scene.locals;
    let first = scene.first;
    let results = scene.results;
    let depth = check.depth;
    match i {
        Instruction::Unreachable => {
            let plan = body_plan_parts::stops(Values::Types(0, 0));
            Act::Does(plan)
        }
        Instruction::Nop => {
            let plan = body_plan_parts::takes(0, 0, Values::Types(0, 0), 0);
            Act::Does(plan)
        }
        Instruction::Block(w) => Act::Opens(false, w),
        Instruction::Loop(w) => Act::Opens(true, w),
        Instruction::End => Act::Closes,
        Instruction::Br(l) => {
            let plan = body_plan_labels::br(work, scene, depth, l);
            Act::Does(plan)
        }
        Instruction::BrIf(l) => {
            let plan = body_plan_labels::br_if(work, scene, depth, l);
            Act::Does(plan)
        }
        Instruction::Return => {
            let plan = body_plan_parts::stops(Values::Types(first, results));
            Act::Does(plan)
        }
        Instruction::Drop => {
            let plan = body_plan_parts::takes(ANY_VALUE, 0, Values::Types(0, 0), 0);
            Act::Does(plan)
        }
        Instruction::LocalGet(x) => {
            let plan = body_plan_locals::local_get(work, locals, depth, x);
            Act::Does(plan)
        }
        Instruction::LocalSet(x) => {
            let plan = body_plan_locals::local_set(work, locals, x);
            Act::Does(plan)
        }
        Instruction::LocalTee(x) => {
            let plan = body_plan_locals::local_tee(work, locals, x);
            Act::Does(plan)
        }
        Instruction::I32Const(_) => {
            let plan = body_plan_parts::takes(0, 0, Values::Types(0, 0), I32 + GIVEN);
            Act::Does(plan)
        }
        Instruction::I64Const(_) => {
            let plan = body_plan_numbers::i64_const();
            Act::Does(plan)
        }
        Instruction::F32Const(_) => {
            let plan = body_plan_numbers::f32_const();
            Act::Does(plan)
        }
        Instruction::F64Const(_) => {
            let plan = body_plan_numbers::f64_const();
            Act::Does(plan)
        }
        Instruction::Numeric(b) => {
            let plan = body_plan_numbers::numeric(table, b);
            Act::Does(plan)
        }
        Instruction::RefNull(h) => {
            let plan = body_plan_casts::ref_null(types, h);
            Act::Does(plan)
        }
        Instruction::RefIsNull => {
            let plan = body_plan_parts::takes(ANY_REFERENCE, 0, Values::Types(0, 0), I32 + GIVEN);
            Act::Does(plan)
        }
        Instruction::RefEq => {
            let plan = body_plan_parts::takes(
                EQ_REF + WANTED,
                EQ_REF + WANTED,
                Values::Types(0, 0),
                I32 + GIVEN,
            );
            Act::Does(plan)
        }
        Instruction::RefAsNonNull => Act::Does(Planned::NonNull),
        Instruction::StructNew(x) => {
            let plan = body_plan_new::struct_new(rows, shared, codes, types, x);
            Act::Does(plan)
        }
        Instruction::StructNewDefault(x) => {
            let plan = body_plan_new_default::struct_new_default(rows, shared, codes, types, x);
            Act::Does(plan)
        }
        Instruction::StructGet(x, f) => {
            let plan = body_plan_fields::struct_get(rows, shared, codes, types, x, f);
            Act::Does(plan)
        }
        Instruction::StructSet(x, f) => {
            let plan = body_plan_fields::struct_set(rows, shared, codes, types, x, f);
            Act::Does(plan)
        }
        Instruction::RefTest(_, h) => {
            let plan = body_plan_casts::ref_test(rows, shared, codes, types, h);
            Act::Does(plan)
        }
        Instruction::RefCast(n, h) => {
            let plan = body_plan_casts::ref_cast(rows, shared, codes, types, n, h);
            Act::Does(plan)
        }
        Instruction::BrOnCast(m, n, l, h, k) => {
            let source = Reference { null: m, heap: h };
            let target = Reference { null: n, heap: k };
            let plan = body_plan_branches::br_on_cast(
                rows, shared, codes, work, scene, depth, l, source, target, false,
            );
            Act::Does(plan)
        }
        Instruction::BrOnCastFail(m, n, l, h, k) => {
            let source = Reference { null: m, heap: h };
            let target = Reference { null: n, heap: k };
            let plan = body_plan_branches::br_on_cast(
                rows, shared, codes, work, scene, depth, l, source, target, true,
            );
            Act::Does(plan)
        }
        Instruction::StructNewDesc(x) => {
            let plan = body_plan_new::struct_new_desc(rows, shared, codes, types, x);
            Act::Does(plan)
        }
        Instruction::StructNewDefaultDesc(x) => {
            let plan = body_plan_new_default::struct_new_default_desc(
                rows, shared, codes, types, x,
            );
            Act::Does(plan)
        }
        Instruction::RefGetDesc(x) => {
            let plan = body_plan_casts::get_desc(rows, shared, codes, types, x);
            Act::Does(plan)
        }
        Instruction::RefCastDescEq(n, h) => {
            let plan = body_plan_casts::cast_desc_eq(rows, shared, codes, types, n, h);
            Act::Does(plan)
        }
        Instruction::BrOnCastDescEq(m, n, l, h, k) => {
            let source = Reference { null: m, heap: h };
            let target = Reference { null: n, heap: k };
            let plan = body_plan_branches::br_on_cast_desc(
                rows, shared, codes, work, scene, depth, l, source, target, false,
            );
            Act::Does(plan)
        }
        Instruction::BrOnCastDescEqFail(m, n, l, h, k) => {
            let source = Reference { null: m, heap: h };
            let target = Reference { null: n, heap: k };
            let plan = body_plan_branches::br_on_cast_desc(
                rows, shared, codes, work, scene, depth, l, source, target, true,
            );
            Act::Does(plan)
        }
    }
}
