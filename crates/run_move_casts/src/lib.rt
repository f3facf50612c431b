// The moves of the casts, ref.test and the branching casts among them: the move where the value passes, and the one where it
// does not.
#![tactic(auto)]

ghost use Rattle.scope.specs.Instructions.{ref_test, ref_cast, br_on_cast, br_on_cast_fail, ref_cast_desc_eq, br_on_cast_desc_eq, br_on_cast_desc_eq_fail};
ghost use Rattle.type_table.specs.View.{heap_at_code, both_codes};
ghost use Rattle.type_hierarchy.specs.Ranged.{Ranged};
ghost use Rattle.body_decoded.specs.Decoded.{cast_of};
ghost use Rattle.run_move_casts.specs.Casts.{CastPlans, DescriptorPlans};

use run_state::Move;
use run_value::Value;
use scope::traps;

// ref.test
pub fn test_move(
    rows: &[u16],
    shared: &[u16],
    codes: &[u16],
    objects: &[u16],
    n: u32,
    first: Option<Value>,
    null: bool,
    h: u64,
) -> Move
    requires { Ranged rows.now (both_codes shared.now codes.now) }
    ensures { CastPlans rows.now (both_codes shared.now codes.now) objects.now n first (ref_test null (heap_at_code h)) result }
{
    let one = Move::Gives(1, Value::I32(1));
    let zero = Move::Gives(1, Value::I32(0));
    run_passing::move_by_type(rows, shared, codes, objects, n, first, null, h, one, zero)
}

// ref.cast
pub fn cast_move(
    rows: &[u16],
    shared: &[u16],
    codes: &[u16],
    objects: &[u16],
    n: u32,
    first: Option<Value>,
    null: bool,
    h: u64,
) -> Move
    requires { Ranged rows.now (both_codes shared.now codes.now) }
    ensures { CastPlans rows.now (both_codes shared.now codes.now) objects.now n first (ref_cast null (heap_at_code h)) result }
{
    let onward = Move::Leaves(0);
    let trap = Move::Traps(traps::CAST);
    run_passing::move_by_type(
        rows, shared, codes, objects, n, first, null, h, onward, trap,
    )
}

// br_on_cast: the target is asked for, not the source
pub fn on_cast_move(
    rows: &[u16],
    shared: &[u16],
    codes: &[u16],
    objects: &[u16],
    n: u32,
    first: Option<Value>,
    l: u64,
    source_null: bool,
    source: u64,
    null: bool,
    h: u64,
) -> Move
    requires { Ranged rows.now (both_codes shared.now codes.now) }
    ensures { CastPlans rows.now (both_codes shared.now codes.now) objects.now n first (br_on_cast (cast_of l source_null source null h)) result }
{
    let target = h;
    let branch = Move::Branches(0, l);
    let onward = Move::Leaves(0);
    run_passing::move_by_type(
        rows, shared, codes, objects, n, first, null, target, branch, onward,
    )
}

// br_on_cast_fail
pub fn on_cast_fail_move(
    rows: &[u16],
    shared: &[u16],
    codes: &[u16],
    objects: &[u16],
    n: u32,
    first: Option<Value>,
    l: u64,
    source_null: bool,
    source: u64,
    null: bool,
    h: u64,
) -> Move
    requires { Ranged rows.now (both_codes shared.now codes.now) }
    ensures { CastPlans rows.now (both_codes shared.now codes.now) objects.now n first (br_on_cast_fail (cast_of l source_null source null h)) result }
{
    let onward = Move::Leaves(0);
    let branch = Move::Branches(0, l);
    run_passing::move_by_type(
        rows, shared, codes, objects, n, first, null, h, onward, branch,
    )
}

// ref.cast_desc_eq
pub fn descriptor_cast_move(
    objects: &[u16],
    n: u32,
    first: Option<Value>,
    second: Option<Value>,
    null: bool,
    h: u64,
) -> Move
    ensures { DescriptorPlans objects.now n first second (ref_cast_desc_eq null (heap_at_code h)) result }
{
    let onward = Move::Leaves(1);
    let trap = Move::Traps(traps::CAST);
    run_passing::move_by_descriptor(objects, n, first, second, null, onward, trap)
}

// br_on_cast_desc_eq
pub fn on_descriptor_move(
    objects: &[u16],
    n: u32,
    first: Option<Value>,
    second: Option<Value>,
    l: u64,
    source_null: bool,
    source: u64,
    null: bool,
    h: u64,
) -> Move
    ensures { DescriptorPlans objects.now n first second (br_on_cast_desc_eq (cast_of l source_null source null h)) result }
{
    let branch = Move::Branches(1, l);
    let onward = Move::Leaves(1);
    run_passing::move_by_descriptor(objects, n, first, second, null, branch, onward)
}

// br_on_cast_desc_eq_fail
pub fn on_descriptor_fail_move(
    objects: &[u16],
    n: u32,
    first: Option<Value>,
    second: Option<Value>,
    l: u64,
    source_null: bool,
    source: u64,
    null: bool,
    h: u64,
) -> Move
    ensures { DescriptorPlans objects.now n first second (br_on_cast_desc_eq_fail (cast_of l source_null source null h)) result }
{
    let onward = Move::Leaves(1);
    let branch = Move::Branches(1, l);
    run_passing::move_by_descriptor(objects, n, first, second, null, onward, branch)
}
