// The state of a run in lent memory, as docs/LAYOUT.md has it: zero before the run, and after it the counts, and zero beyond
// what they count.
#![tactic(auto)]

ghost use Rattle.std.specs.Prelude.{◌≡◌};
ghost use Rattle.scope.specs.Answers.{state_lent};
ghost use Rattle.run_buffers.specs.States.{state_of, Cleared, Settling, Settled};

use run_state::Stage;
use scope::sizes;

// Whether each buffer of the state has its one size.
pub fn is_enough(
    counts: &[u64],
    objects: &[u16],
    cells: &[u64],
    locals: &[u64],
    operands: &[u64],
    blocks: &[u16],
) -> bool
    ensures { let state = state_of counts.now objects.now cells.now locals.now operands.now blocks.now in
        result ≡ state_lent state }
{
    if counts.len() < sizes::COUNTS {
        return false;
    }
    if objects.len() < sizes::OBJECTS {
        return false;
    }
    if cells.len() < sizes::CELLS {
        return false;
    }
    if locals.len() < sizes::LOCALS {
        return false;
    }
    if operands.len() < sizes::OPERANDS {
        return false;
    }
    sizes::BLOCKS <= blocks.len()
}

// Zero in every word.
pub fn clear(
    counts: &mut [u64],
    objects: &mut [u16],
    cells: &mut [u64],
    locals: &mut [u64],
    operands: &mut [u64],
    blocks: &mut [u16],
)
    ensures { let before = state_of counts.old objects.old cells.old locals.old operands.old blocks.old in
        let after = state_of counts.new objects.new cells.new locals.new operands.new blocks.new in
        Cleared before after }
{
    run_values::wipe64(counts);
    lent_u16::wipe(objects);
    run_values::wipe64(cells);
    run_values::wipe64(locals);
    run_values::wipe64(operands);
    lent_u16::wipe(blocks);
}

// The state as it is told: the counts, and zero beyond what they count.
pub fn settle(
    counts: &mut [u64],
    objects: &mut [u16],
    cells: &mut [u64],
    locals: &mut [u64],
    operands: &mut [u64],
    blocks: &mut [u16],
    stage: Stage,
    count: u16,
)
    requires { let state = state_of counts.old objects.old cells.old locals.old operands.old blocks.old in
        Settling count stage state }
    ensures { let before = state_of counts.old objects.old cells.old locals.old operands.old blocks.old in
        let after = state_of counts.new objects.new cells.new locals.new operands.new blocks.new in
        Settled count stage before after }
{
    run_settle::put_counts(counts, stage, count);
    run_settle::settle_heap(objects, cells, stage);
    run_settle::settle_values(locals, operands, stage, count);
    run_settle::settle_blocks(blocks, stage);
}
