// A trial run in lent memory: step after step, until it is done, traps or has spent its budget.
#![tactic(auto)]

ghost use Rattle.run_state.specs.Machines.{words};
ghost use Rattle.run_step.specs.Carried.{StepOf};
ghost use Rattle.run_loop.specs.Runs.{Readable, Runnable, RanFrom};
ghost use Rattle.type_table.specs.View.{both_codes};
ghost use Rattle.type_hierarchy.specs.Ranged.{Ranged};

use run_state::{Stage, Stepped};
use run_turn::{Ending, Turn};

// The next step: of the instruction at the stage's place.
fn step_next(
    s: &[u8],
    rows: &[u16],
    shared: &[u16],
    codes: &[u16],
    ends: &[u16],
    objects: &mut [u16],
    cells: &mut [u64],
    locals: &mut [u64],
    operands: &mut [u64],
    blocks: &mut [u16],
    count: u16,
    results: u32,
    stage: Stage,
) -> Stepped
    requires readable { Readable s.now ends.now count (words objects.old cells.old locals.old operands.old blocks.old) stage }
    requires ranged { Ranged rows.now (both_codes shared.now codes.now) }
    ensures { let before = words objects.old cells.old locals.old operands.old blocks.old in
        let after = words objects.new cells.new locals.new operands.new blocks.new in
        StepOf s.now rows.now (both_codes shared.now codes.now) ends.now count before after stage results result }
{
    let place = stage.place;
    let read = body_instruction::instruction_at(s, place);
    match read {
        Err(_) => Stepped::Astray,
        Ok((i, next)) => run_step::step(
            s, rows, shared, codes, ends, objects, cells, locals, operands, blocks, count, results,
            stage, next, i,
        ),
    }
}

// A run from the place `first` on, with an empty heap and no operand.
pub fn run_from(
    s: &[u8],
    rows: &[u16],
    shared: &[u16],
    codes: &[u16],
    ends: &[u16],
    objects: &mut [u16],
    cells: &mut [u64],
    locals: &mut [u64],
    operands: &mut [u64],
    blocks: &mut [u16],
    count: u16,
    results: u32,
    first: usize,
    budget: u64,
) -> Ending
    requires runnable { Runnable s.now rows.now (both_codes shared.now codes.now) ends.now count (words objects.old cells.old locals.old operands.old blocks.old) results first }
    requires ranged { Ranged rows.now (both_codes shared.now codes.now) }
    ensures { let before = words objects.old cells.old locals.old operands.old blocks.old in
        let after = words objects.new cells.new locals.new operands.new blocks.new in
        RanFrom s.now rows.now (both_codes shared.now codes.now) count before after results first budget result }
{
    let mut stage = run_state::start(first);
    for steps in 0..budget {
        let stepped = step_next(
            s, rows, shared, codes, ends, objects, cells, locals, operands, blocks, count, results,
            stage,
        );
        let turn = run_turn::turn_of(stepped, stage, steps);
        match turn {
            Turn::Over(ended) => {
                return ended;
            }
            Turn::On(later, _) => {
                stage = later;
            }
        }
    }
    Ending::Spent(stage, budget)
}
