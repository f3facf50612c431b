// The rules of constants and of numeric instructions. What a numeric code takes and gives is asked of the table of
// body_numeric, whose codes of types are the plan's own.
#![tactic(auto)]

ghost use Rattle.scope.specs.Instructions.{i64_const, f32_const, f64_const, numeric};
ghost use Rattle.body_numeric.specs.Entries.{Tabled};
ghost use Rattle.body_plan_numbers.specs.Everywhere.{Everywhere, Constant};

use body_plan_parts::{GIVEN, WANTED};
use body_state::{Planned, Values};
use scope::refusals;

// The codes of i64, f32 and f64.
const I64: u64 = 1;

const F32: u64 = 2;

const F64: u64 = 3;

// i64.const
pub fn i64_const() -> Planned
    ensures { Constant i64_const result }
{
    body_plan_parts::takes(0, 0, Values::Types(0, 0), I64 + GIVEN)
}

// f32.const
pub fn f32_const() -> Planned
    ensures { Constant f32_const result }
{
    body_plan_parts::takes(0, 0, Values::Types(0, 0), F32 + GIVEN)
}

// f64.const
pub fn f64_const() -> Planned
    ensures { Constant f64_const result }
{
    body_plan_parts::takes(0, 0, Values::Types(0, 0), F64 + GIVEN)
}

// A numeric instruction by its code: one operand or two of one kind, and its result.
pub fn numeric(table: &[u8], b: u8) -> Planned
    requires { Tabled table.now }
    ensures { Everywhere (numeric b) result }
{
    let row = body_numeric::numeric_row(table, b);
    let operands = row.operands;
    if operands == 0 {
        return Planned::Fault(refusals::NOT_LISTED);
    }
    let wanted = row.kind + WANTED;
    let given = row.result + GIVEN;
    if operands == 1 {
        return body_plan_parts::takes(wanted, 0, Values::Types(0, 0), given);
    }
    body_plan_parts::takes(wanted, wanted, Values::Types(0, 0), given)
}
