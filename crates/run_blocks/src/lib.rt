// Blocks of a trial run: opening one, `end`, and the end of the run.
#![tactic(auto)]

ghost use Rattle.run_values.specs.Layout.{opened_block, opened_loop};
ghost use Rattle.run_state.specs.Machines.{at_height};
ghost use Rattle.run_state.specs.Controlled.{Piled};
ghost use Rattle.run_blocks.specs.Blocks.{Low, Opens, Finishes, Closable, Closes};

use run_state::{Stage, Stepped};
use run_values::layout;
use scope::sizes;

// The sizes and offsets as this crate needs them: a number of blocks has 32 bits, a place in memory 64.
const MOST_BLOCKS: u32 = sizes::MOST_BLOCKS as u32;

const PLACE: u64 = layout::PLACE as u64;

const BELOW: u64 = layout::BELOW as u64;

// The instruction at the stage's place opens a block of that kind, and its code begins at `next`.
fn open(blocks: &mut [u16], stage: Stage, next: usize, kind: u16) -> Stepped
    requires { Low stage }
    ensures { Opens blocks.old blocks.new stage next kind result }
{
    let at = stage.place;
    let depth = stage.depth;
    if MOST_BLOCKS <= depth {
        return Stepped::Astray;
    }
    let word = sizes::BLOCK * depth as u64;
    let base = stage.base;
    let height = stage.height;
    let below = base as u64 + height as u64;
    lent_u16::put(blocks, word, kind as u64);
    lent_u16::put(blocks, word + PLACE, at as u64);
    lent_u16::put(blocks, word + BELOW, below);
    Stepped::Goes(Stage {
        place: next,
        objects: stage.objects,
        cells: stage.cells,
        base: below as u32,
        height: 0,
        depth: depth + 1,
    })
}

// The `block` at the stage's place.
pub fn open_block(blocks: &mut [u16], stage: Stage, next: usize) -> Stepped
    requires { Low stage }
    ensures { Opens blocks.old blocks.new stage next opened_block result }
{
    open(blocks, stage, next, layout::OPENED_BLOCK)
}

// The `loop` at the stage's place.
pub fn open_loop(blocks: &mut [u16], stage: Stage, next: usize) -> Stepped
    requires { Low stage }
    ensures { Opens blocks.old blocks.new stage next opened_loop result }
{
    open(blocks, stage, next, layout::OPENED_LOOP)
}

// The run is done: the topmost of `left` operands are its results, and they alone remain.
pub fn finish(operands: &mut [u64], stage: Stage, left: u32, results: u32, bytes: usize) -> Stepped
    requires { Piled operands.old (at_height stage left) }
    ensures { Finishes operands.old operands.new stage left results bytes result }
{
    if left < results {
        return Stepped::Astray;
    }
    let base = stage.base;
    let from = base + (left - results);
    run_stack::move_down(operands, from, 0, results);
    Stepped::Ends(Stage {
        place: bytes,
        objects: stage.objects,
        cells: stage.cells,
        base: 0,
        height: results,
        depth: 0,
    })
}

// The `end` at the stage's place: of the innermost block, whose operands now lie on those below it; or of the function.
pub fn close(
    operands: &mut [u64],
    blocks: &[u16],
    stage: Stage,
    next: usize,
    results: u32,
    bytes: usize,
) -> Stepped
    requires { Closable operands.old blocks.now stage }
    ensures { Closes operands.old operands.new blocks.now stage next results bytes result }
{
    let depth = stage.depth;
    let height = stage.height;
    if depth == 0 {
        return finish(operands, stage, height, results, bytes);
    }
    let base = stage.base;
    let lower = run_state::lower_of(blocks, depth - 1);
    Stepped::Goes(Stage {
        place: next,
        objects: stage.objects,
        cells: stage.cells,
        base: lower,
        height: base - lower + height,
        depth: depth - 1,
    })
}
