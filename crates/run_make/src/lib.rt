// An object of a trial run, made: its cells are filled, its row is put after the others', and its reference is pushed. Where
// there is no room for the reference it is astray, and nothing is written.
#![tactic(auto)]

ghost use Rattle.std.specs.Prelude.{◌+◌};
ghost use Rattle.run_values.specs.Values.{values_from};
ghost use Rattle.run_state.specs.Moved.{defaults_at};
ghost use Rattle.run_make.specs.Made.{PutRoom, PutMade, Makable, MakableGiven, MadeIs};
ghost use Rattle.type_table.specs.View.{both_codes};

use run_state::{Stage, Stepped};
use run_value::Value;

// The row of a new object with k cells, and its reference on `left` operands.
#[tactic(auto, using(crate::proofs::Objects::make_exits))]
fn put_made(
    objects: &mut [u16],
    operands: &mut [u64],
    stage: Stage,
    left: u32,
    x: u16,
    d: u16,
    k: u32,
) -> Stage
    requires { PutRoom objects.old operands.old stage left k }
    ensures { PutMade
        objects.old objects.new
        operands.old operands.new
        stage left x d k result }
{
    let n = stage.objects;
    let total = stage.cells;
    run_heap::put_object(objects, n, x, d, total as u16, k as u16);
    let number = n as u64;
    run_stack::push(operands, stage.base, left, Value::Object(number));
    Stage {
        objects: n + 1,
        cells: total + k,
        height: left + 1,
        ..stage
    }
}

// An object of the k values that lie on `left` operands.
#[tactic(auto, using(crate::proofs::Objects::make_exits))]
pub fn make_given(
    objects: &mut [u16],
    cells: &mut [u64],
    operands: &mut [u64],
    stage: Stage,
    left: u32,
    x: u16,
    d: u16,
    k: u32,
) -> Stepped
    requires { MakableGiven objects.old cells.old operands.old stage left k }
    ensures { let fields = values_from operands.old (stage.base + left) k in
        MadeIs
        objects.old objects.new
        cells.old cells.new
        operands.old operands.new
        stage left x d k fields result }
{
    if run_state::is_full(stage, left) {
        return Stepped::Astray;
    }
    let base = stage.base;
    let total = stage.cells;
    run_cells::copy_cells(cells, operands, base + left, total, k);
    let later = put_made(objects, operands, stage, left, x, d, k);
    Stepped::Goes(later)
}

// An object of the defaults of k fields, whose codes stand in the table from `first` on.
#[tactic(auto, using(crate::proofs::Objects::make_exits))]
pub fn make_default(
    shared: &[u16],
    codes: &[u16],
    objects: &mut [u16],
    cells: &mut [u64],
    operands: &mut [u64],
    stage: Stage,
    left: u32,
    x: u16,
    d: u16,
    first: u32,
    k: u32,
) -> Stepped
    requires { Makable objects.old cells.old operands.old stage left k }
    ensures { let fields = defaults_at (both_codes shared.now codes.now) first k in
        MadeIs
        objects.old objects.new
        cells.old cells.new
        operands.old operands.new
        stage left x d k fields result }
{
    if run_state::is_full(stage, left) {
        return Stepped::Astray;
    }
    let total = stage.cells;
    run_cells::default_cells(shared, codes, cells, first, k, total);
    let later = put_made(objects, operands, stage, left, x, d, k);
    Stepped::Goes(later)
}
