// Operands taken and put, where it is plain that they fit. `top` counts the operands of all frames, `base` those below the
// innermost. An answer is one more than the operands that are left then; 0 where it is not told here.
#![tactic(auto)]

ghost use Rattle.std.specs.Prelude.{◌≡◌, ◌<◌};
ghost use Rattle.type_table.specs.View.{view, both_codes};
ghost use Rattle.type_hierarchy.specs.Ranged.{Ranged};
ghost use Rattle.body_progress.specs.Standing.{Ordered};
ghost use Rattle.body_quick_take.specs.Taking.{Took, TookAny, Put};

use body_state::OPERANDS;
use scope::sizes;
use type_fit::Fit;

// How many operands there are after an instruction, and how many bytes it takes; no bytes where it is not told here.
#[derive(Clone, Copy)]
pub struct Done {
    pub top: u64,
    pub size: u64,
}

pub fn not_told() -> Done
    ensures { result ≡ record { top = 0; size = 0 } }
{
    Done { top: 0, size: 0 }
}

// One operand of a number type, or of any type that is the very one wanted.
pub fn taken_number(work: &[u32], base: u64, top: u64, dead: u64, w: u64) -> u64
    requires { Ordered base top }
    ensures { TookAny work.now base top dead w result }
{
    if top == base {
        return if dead == 1 { top + 1 } else { 0 };
    }
    let o = lent_u32::word32(work, OPERANDS + top - 1);
    if o == w { top } else { 0 }
}

// One operand of the type whose word is w.
pub fn taken(
    rows: &[u16],
    shared: &[u16],
    codes: &[u16],
    work: &[u32],
    base: u64,
    top: u64,
    dead: u64,
    w: u64,
) -> u64
    requires ordered { Ordered base top }
    requires ranged { Ranged rows.now (both_codes shared.now codes.now) }
    ensures { let types = view rows.now (both_codes shared.now codes.now) in
        Took types work.now base top dead w result }
{
    if top == base {
        return if dead == 1 { top + 1 } else { 0 };
    }
    let o = lent_u32::word32(work, OPERANDS + top - 1);
    if o == w {
        return top;
    }
    let fit = body_fit::fit_word(rows, shared, codes, o, w);
    match fit {
        Fit::Fits => top,
        Fit::ButForNull => 0,
        Fit::Unfit => 0,
    }
}

// One operand put, after which the instruction is done.
pub fn put(work: &mut [u32], top: u64, w: u64, size: u64) -> Done
    requires { 0 < size }
    ensures { Put work.old work.new top w size result }
{
    if sizes::MOST_OPERANDS <= top {
        return not_told();
    }
    lent_u32::put32(work, OPERANDS + top, w);
    Done {
        top: top + 1,
        size: size,
    }
}
