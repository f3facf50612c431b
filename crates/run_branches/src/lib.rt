// A branch of a trial run, out of several blocks or to the head of a loop. It finds its target without a search: the open
// block's words say where its instruction stands, and the matching end was kept for that place.
#![tactic(auto)]

ghost use Rattle.std.specs.Prelude.{◌≡◌, length};
ghost use Rattle.body_decoded.specs.Decoded.{block_results};
ghost use Rattle.run_branches.specs.Branches.{Branchable, BranchableTo, BranchesTo, Descends, BranchesOut, Branches};

use body_immediates::Instruction;
use run_state::{Stage, Stepped};
use run_values::layout;

// How many values the label of a block takes, by its result's word.
fn takes_of(w: u64) -> u32
    ensures { result ≡ length (block_results w) }
{
    if w == 0 { 0 } else { 1 }
}

// Out of open block d, which is no loop: its values go down onto the operands below it, and the code goes on past its end.
fn branch_out(
    ends: &[u16],
    operands: &mut [u64],
    blocks: &[u16],
    stage: Stage,
    left: u32,
    d: u32,
    takes: u32,
) -> Stepped
    requires { Descends operands.old blocks.now stage left d }
    ensures { let before = operands.old in
        let after = operands.new in
        BranchesOut ends.now before after blocks.now stage left d takes result }
{
    if left < takes {
        return Stepped::Astray;
    }
    let place = run_state::block_word(blocks, d, layout::PLACE);
    let below = run_state::block_word(blocks, d, layout::BELOW);
    let lower = run_state::lower_of(blocks, d);
    let to = lent_u16::word(ends, place);
    let base = stage.base;
    let from = base + (left - takes);
    run_stack::move_down(operands, from, below as u32, takes);
    Stepped::Goes(Stage {
        place: to as usize,
        objects: stage.objects,
        cells: stage.cells,
        base: lower,
        height: below as u32 - lower + takes,
        depth: d,
    })
}

// To the label of open block d: out of a block, or to the instruction after its `loop`, the loop kept open.
fn branch_to(
    s: &[u8],
    ends: &[u16],
    operands: &mut [u64],
    blocks: &[u16],
    stage: Stage,
    left: u32,
    d: u32,
) -> Stepped
    requires { BranchableTo s.now ends.now operands.old blocks.now stage left d }
    ensures { let before = operands.old in
        let after = operands.new in
        BranchesTo s.now ends.now before after blocks.now stage left d result }
{
    let place = run_state::block_word(blocks, d, layout::PLACE);
    let read = body_instruction::instruction_at(s, place as usize);
    match read {
        Err(_) => Stepped::Astray,
        Ok((i, next)) => match i {
            Instruction::Loop(_) => {
                let below = run_state::block_word(blocks, d, layout::BELOW);
                Stepped::Goes(Stage {
                    place: next,
                    objects: stage.objects,
                    cells: stage.cells,
                    base: below as u32,
                    height: 0,
                    depth: d + 1,
                })
            }
            Instruction::Block(w) => {
                let takes = takes_of(w);
                branch_out(ends, operands, blocks, stage, left, d, takes)
            }
            _ => Stepped::Astray,
        },
    }
}

// A branch to a label, with `left` operands of the innermost frame.
pub fn branch(
    s: &[u8],
    ends: &[u16],
    operands: &mut [u64],
    blocks: &[u16],
    stage: Stage,
    left: u32,
    label: u64,
    results: u32,
) -> Stepped
    requires { Branchable s.now ends.now operands.old blocks.now stage left }
    ensures { let before = operands.old in
        let after = operands.new in
        Branches s.now ends.now before after blocks.now stage left label results result }
{
    let depth = stage.depth;
    if (depth as u64) < label {
        return Stepped::Astray;
    }
    if depth as u64 == label {
        return run_blocks::finish(operands, stage, left, results, s.len());
    }
    let d = depth - 1 - label as u32;
    branch_to(s, ends, operands, blocks, stage, left, d)
}
