// The state as it is told, part by part: the counts, and zero beyond what they count.
#![tactic(auto)]

ghost use Rattle.std.specs.Prelude.{◌≡◌, ◌+◌, ◌*◌, ◌≤◌, length, set, take};
ghost use Rattle.scope.specs.Layout.{block_span};
ghost use Rattle.scope.specs.Memory.{filled};
ghost use Rattle.run_settle.specs.Counts.{counts_of, CountRoom};
ghost use Rattle.run_settle.specs.Beyond.{HeapRoom, HeapSettled, ValueRoom, ValuesSettled};

use run_state::Stage;
use scope::sizes;

// Three words from a place on.
fn put_three(m: &mut [u64], at: u8, a: u64, b: u64, c: u64)
    ensures { m.new ≡ set (set (set m.old at a) (at + 1) b) (at + 2) c }
{
    run_values::put64(m, at as u64, a);
    run_values::put64(m, at as u64 + 1, b);
    run_values::put64(m, at as u64 + 2, c);
}

// The counts, and zero after them.
#[tactic(auto, using(crate::proofs::Counting::count_exits))]
pub fn put_counts(counts: &mut [u64], stage: Stage, count: u16)
    requires { CountRoom stage counts.old }
    ensures { counts.new ≡ filled counts.old (counts_of count stage) }
{
    let place = stage.place;
    let objects = stage.objects;
    let cells = stage.cells;
    let operands = stage.base + stage.height;
    let depth = stage.depth;
    put_three(counts, 0, place as u64, objects as u64, cells as u64);
    put_three(counts, 3, count as u64, operands as u64, depth as u64);
    run_values::fill_from(counts, sizes::COUNTS as u64, 0);
}

// The heap: zero beyond its objects and their cells.
pub fn settle_heap(objects: &mut [u16], cells: &mut [u64], stage: Stage)
    requires { HeapRoom stage objects.old cells.old }
    ensures { HeapSettled stage objects.old cells.old objects.new cells.new }
{
    let many = stage.objects;
    let total = stage.cells;
    run_values::fill_from(objects, sizes::OBJECT * many as u64, 0);
    run_values::fill_from(cells, sizes::VALUE * total as u64, 0);
}

// Locals and operands: zero beyond them.
pub fn settle_values(locals: &mut [u64], operands: &mut [u64], stage: Stage, count: u16)
    requires { ValueRoom count stage locals.old operands.old }
    ensures { ValuesSettled count stage locals.old operands.old locals.new operands.new }
{
    let high = stage.base + stage.height;
    run_values::fill_from(locals, sizes::VALUE * count as u64, 0);
    run_values::fill_from(operands, sizes::VALUE * high as u64, 0);
}

// The open blocks: zero beyond them.
pub fn settle_blocks(blocks: &mut [u16], stage: Stage)
    requires { block_span * stage.depth ≤ length blocks.old }
    ensures { let before = blocks.old in
        blocks.new ≡ filled before (take (block_span * stage.depth) before) }
{
    let depth = stage.depth;
    run_values::fill_from(blocks, sizes::BLOCK * depth as u64, 0);
}
