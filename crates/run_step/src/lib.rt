// One step of a trial run: the move of the instruction is carried out in the run's memory, or a block is opened or closed.
#![tactic(auto)]

ghost use Rattle.run_state.specs.Machines.{words};
ghost use Rattle.run_step.specs.Carried.{Movable, Carried, Inside, InsideIs, Steppable, StepOf};
ghost use Rattle.type_table.specs.View.{both_codes};
ghost use Rattle.type_hierarchy.specs.Ranged.{Ranged};

use body_immediates::Instruction;
use run_state::{Move, Stage, Stepped};

// A move, carried out. Nothing is written where it traps.
fn carry_out(
    s: &[u8],
    shared: &[u16],
    codes: &[u16],
    ends: &[u16],
    objects: &mut [u16],
    cells: &mut [u64],
    locals: &mut [u64],
    operands: &mut [u64],
    blocks: &[u16],
    count: u16,
    results: u32,
    stage: Stage,
    it: Move,
) -> Stepped
    requires { Movable s.now ends.now count (words objects.old cells.old locals.old operands.old blocks.now) stage it }
    ensures { let before = words objects.old cells.old locals.old operands.old blocks.now in
        let after = words objects.new cells.new locals.new operands.new blocks.now in
        Carried s.now (both_codes shared.now codes.now) ends.now count before after stage results it result }
{
    let height = stage.height;
    let base = stage.base;
    match it {
        Move::Astray => Stepped::Astray,
        Move::Traps(number) => Stepped::Traps(number),
        Move::Leaves(n) => {
            let later = run_state::at_height(stage, height - n);
            Stepped::Goes(later)
        }
        Move::Gives(n, v) => {
            let left = height - n;
            if run_state::is_full(stage, left) {
                return Stepped::Astray;
            }
            run_stack::push(operands, base, left, v);
            let later = run_state::at_height(stage, left + 1);
            Stepped::Goes(later)
        }
        Move::SetsLocal(n, x, v) => {
            run_stack::set_local(locals, count, x, v);
            let later = run_state::at_height(stage, height - n);
            Stepped::Goes(later)
        }
        Move::SetsField(n, o, i, v) => {
            run_objects::set_field(objects, cells, o, i, v);
            let later = run_state::at_height(stage, height - n);
            Stepped::Goes(later)
        }
        Move::Makes(n, x, d, k) => {
            let left = height - n - k;
            run_make::make_given(objects, cells, operands, stage, left, x, d, k)
        }
        Move::MakesDefault(n, x, d, first, k) => {
            let left = height - n;
            run_make::make_default(
                shared, codes, objects, cells, operands, stage, left, x, d, first, k,
            )
        }
        Move::Branches(n, label) => {
            let left = height - n;
            run_branches::branch(s, ends, operands, blocks, stage, left, label, results)
        }
        Move::Returns => run_blocks::finish(operands, stage, height, results, s.len()),
    }
}

// An instruction inside its block; the stage is already past it.
fn step_inside(
    s: &[u8],
    rows: &[u16],
    shared: &[u16],
    codes: &[u16],
    ends: &[u16],
    objects: &mut [u16],
    cells: &mut [u64],
    locals: &mut [u64],
    operands: &mut [u64],
    blocks: &[u16],
    count: u16,
    results: u32,
    stage: Stage,
    i: Instruction,
) -> Stepped
    requires inside { Inside s.now ends.now count (words objects.old cells.old locals.old operands.old blocks.now) stage i }
    requires ranged { Ranged rows.now (both_codes shared.now codes.now) }
    ensures { let before = words objects.old cells.old locals.old operands.old blocks.now in
        let after = words objects.new cells.new locals.new operands.new blocks.now in
        InsideIs s.now rows.now (both_codes shared.now codes.now) ends.now count before after stage results i result }
{
    let it = run_moves::move_of(
        rows, shared, codes, objects, cells, locals, operands, count, stage, i,
    );
    carry_out(
        s, shared, codes, ends, objects, cells, locals, operands, blocks, count, results, stage, it,
    )
}

// The instruction at the stage's place, after which the next one stands at `next`.
pub fn step(
    s: &[u8],
    rows: &[u16],
    shared: &[u16],
    codes: &[u16],
    ends: &[u16],
    objects: &mut [u16],
    cells: &mut [u64],
    locals: &mut [u64],
    operands: &mut [u64],
    blocks: &mut [u16],
    count: u16,
    results: u32,
    stage: Stage,
    next: usize,
    i: Instruction,
) -> Stepped
    requires steppable { Steppable s.now ends.now count (words objects.old cells.old locals.old operands.old blocks.old) stage i next }
    requires ranged { Ranged rows.now (both_codes shared.now codes.now) }
    ensures { let before = words objects.old cells.old locals.old operands.old blocks.old in
        let after = words objects.new cells.new locals.new operands.new blocks.new in
        StepOf s.now rows.now (both_codes shared.now codes.now) ends.now count before after stage results result }
{
    match i {
        Instruction::Block(_) => run_blocks::open_block(blocks, stage, next),
        Instruction::Loop(_) => run_blocks::open_loop(blocks, stage, next),
        Instruction::End => run_blocks::close(operands, blocks, stage, next, results, s.len()),
        _ => {
            let onward = Stage {
                place: next,
                objects: stage.objects,
                cells: stage.cells,
                base: stage.base,
                height: stage.height,
                depth: stage.depth,
            };
            step_inside(
                s, rows, shared, codes, ends, objects, cells, locals, operands, blocks, count,
                results, onward, i,
            )
        }
    }
}
