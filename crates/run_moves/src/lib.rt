// The move of each instruction, from the words of a run's memory. Nothing is written here. The moves are told in the
// crates run_move_operands, run_move_locals, run_move_references, run_move_numbers, run_move_fields, run_move_new and
// run_move_casts.
#![tactic(auto)]

ghost use Rattle.body_decoded.specs.Named.{Modest};
ghost use Rattle.run_moves.specs.Moving.{MoveOf};
ghost use Rattle.type_table.specs.View.{both_codes};
ghost use Rattle.type_hierarchy.specs.Ranged.{Ranged};

use body_immediates::Instruction;
use run_state::{Move, Stage};
use run_value::Value;
use scope::traps;

// What an instruction inside its block comes to; one that opens or closes a block has no move. An operand is read only where the
// instruction looks at it: most look at one or none.
pub fn move_of(
    rows: &[u16],
    shared: &[u16],
    codes: &[u16],
    objects: &[u16],
    cells: &[u64],
    locals: &[u64],
    operands: &[u64],
    count: u16,
    stage: Stage,
    i: Instruction,
) -> Move
    requires modest { Modest i }
    requires ranged { Ranged rows.now (both_codes shared.now codes.now) }
    ensures { MoveOf
        rows.now (both_codes shared.now codes.now)
        objects.now cells.now locals.now operands.now
        count stage i result }
{
    let n = stage.objects;
    let total = stage.cells;
    let base = stage.base;
    let height = stage.height;
    match i {
        Instruction::Unreachable => Move::Traps(traps::UNREACHABLE),
        Instruction::Nop => Move::Leaves(0),
        Instruction::Block(_) => Move::Astray,
        Instruction::Loop(_) => Move::Astray,
        Instruction::End => Move::Astray,
        Instruction::Br(l) => Move::Branches(0, l),
        Instruction::BrIf(l) => {
            let first = run_stack::top(operands, base, height);
            run_move_operands::branch_move(first, l)
        }
        Instruction::Return => Move::Returns,
        Instruction::Drop => {
            let first = run_stack::top(operands, base, height);
            run_move_operands::drop_move(first)
        }
        Instruction::LocalGet(x) => run_move_locals::get_move(locals, count, x),
        Instruction::LocalSet(x) => {
            let first = run_stack::top(operands, base, height);
            run_move_locals::set_move(locals, count, first, x)
        }
        Instruction::LocalTee(x) => {
            let first = run_stack::top(operands, base, height);
            run_move_locals::tee_move(locals, count, first, x)
        }
        Instruction::I32Const(bits) => Move::Gives(0, Value::I32(bits)),
        Instruction::I64Const(bits) => Move::Gives(0, Value::I64(bits)),
        Instruction::F32Const(bits) => {
            let v = run_value::single(bits);
            Move::Gives(0, v)
        }
        Instruction::F64Const(bits) => {
            let v = run_value::double(bits);
            Move::Gives(0, v)
        }
        Instruction::Numeric(code) => {
            let first = run_stack::top(operands, base, height);
            let second = run_move_operands::second_of(operands, base, height);
            run_move_numbers::numeric_move(first, second, code)
        }
        Instruction::RefNull(_) => Move::Gives(0, Value::Null),
        Instruction::RefIsNull => {
            let first = run_stack::top(operands, base, height);
            run_move_references::is_null_move(first)
        }
        Instruction::RefEq => {
            let first = run_stack::top(operands, base, height);
            let second = run_move_operands::second_of(operands, base, height);
            run_move_references::eq_move(first, second)
        }
        Instruction::RefAsNonNull => {
            let first = run_stack::top(operands, base, height);
            run_move_references::as_non_null_move(first)
        }
        Instruction::StructNew(x) => {
            let first = run_stack::top(operands, base, height);
            run_move_new::new_move(rows, shared, codes, n, total, height, first, x)
        }
        Instruction::StructNewDefault(x) => {
            let first = run_stack::top(operands, base, height);
            run_move_new::new_default_move(rows, shared, codes, n, total, height, first, x)
        }
        Instruction::StructGet(x, f) => {
            let first = run_stack::top(operands, base, height);
            run_move_fields::get_field_move(objects, cells, n, first, x, f)
        }
        Instruction::StructSet(x, f) => {
            let first = run_stack::top(operands, base, height);
            let second = run_move_operands::second_of(operands, base, height);
            run_move_fields::set_field_move(objects, cells, n, first, second, x, f)
        }
        Instruction::RefTest(null, h) => {
            let first = run_stack::top(operands, base, height);
            run_move_casts::test_move(rows, shared, codes, objects, n, first, null, h)
        }
        Instruction::RefCast(null, h) => {
            let first = run_stack::top(operands, base, height);
            run_move_casts::cast_move(rows, shared, codes, objects, n, first, null, h)
        }
        Instruction::BrOnCast(source_null, null, l, source, h) => {
            let first = run_stack::top(operands, base, height);
            run_move_casts::on_cast_move(
                rows,
                shared,
                codes,
                objects,
                n,
                first,
                l,
                source_null,
                source,
                null,
                h,
            )
        }
        Instruction::BrOnCastFail(source_null, null, l, source, h) => {
            let first = run_stack::top(operands, base, height);
            run_move_casts::on_cast_fail_move(
                rows,
                shared,
                codes,
                objects,
                n,
                first,
                l,
                source_null,
                source,
                null,
                h,
            )
        }
        Instruction::StructNewDesc(x) => {
            let first = run_stack::top(operands, base, height);
            run_move_new::new_desc_move(rows, shared, codes, n, total, height, first, x)
        }
        Instruction::StructNewDefaultDesc(x) => {
            let first = run_stack::top(operands, base, height);
            run_move_new::new_default_desc_move(rows, shared, codes, n, total, height, first, x)
        }
        Instruction::RefGetDesc(x) => {
            let first = run_stack::top(operands, base, height);
            run_move_fields::get_descriptor_move(objects, cells, n, first, x)
        }
        Instruction::RefCastDescEq(null, h) => {
            let first = run_stack::top(operands, base, height);
            let second = run_move_operands::second_of(operands, base, height);
            run_move_casts::descriptor_cast_move(objects, n, first, second, null, h)
        }
        Instruction::BrOnCastDescEq(source_null, null, l, source, h) => {
            let first = run_stack::top(operands, base, height);
            let second = run_move_operands::second_of(operands, base, height);
            run_move_casts::on_descriptor_move(
                objects,
                n,
                first,
                second,
                l,
                source_null,
                source,
                null,
                h,
            )
        }
        Instruction::BrOnCastDescEqFail(source_null, null, l, source, h) => {
            let first = run_stack::top(operands, base, height);
            let second = run_move_operands::second_of(operands, base, height);
            run_move_casts::on_descriptor_fail_move(
                objects,
                n,
                first,
                second,
                l,
                source_null,
                source,
                null,
                h,
            )
        }
    }
}
