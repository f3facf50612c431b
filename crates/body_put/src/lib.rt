// Operands of a body's check, put on top of the scratch's stack: one word, or the types of a list. What the words then say is
// by document 01's rules (scope's Bodies.antt).
#![tactic(auto)]

ghost use Rattle.std.specs.Prelude.{[], ◌∷◌, ◌+◌, ◌%◌, length};
ghost use Rattle.scope.specs.Bodies.{on_top};
ghost use Rattle.body_state.specs.Layout.{word_bound};
ghost use Rattle.body_state.specs.State.{operand_at_code, values_of};
ghost use Rattle.body_put.specs.Putting.{Room, Pushed};
ghost use Rattle.type_table.specs.View.{both_codes};

use body_state::Values;
use body_words::KNOWN;

// An operand's word on top.
pub fn push(work: &mut [u32], base: u32, height: u32, o: u64)
    requires { Room work.old base height 1 }
    ensures { Pushed work.old work.new base height (height + 1) (operand_at_code (o % word_bound) ∷ []) }
{
    lent_u32::put32(
        work,
        body_state::OPERANDS + (base as u64 + height as u64),
        o,
    );
}

// The types of a list, the last on top.
pub fn push_list(
    shared: &[u16],
    codes: &[u16],
    work: &mut [u32],
    list: Values,
    base: u32,
    height: u32,
)
    requires { Room work.old base height (length (values_of (both_codes shared.now codes.now) list)) }
    ensures { let vs = values_of (both_codes shared.now codes.now) list in
        Pushed work.old work.new base height (height + length vs) (on_top vs) }
{
    for i in 0..body_state::length_of(list) {
        let code = body_state::code_of(shared, codes, list, i);
        push(work, base, height + i, code + KNOWN);
    }
}
