// One operand of a body's check, taken from the top of the scratch's stack and held against what is wanted. Taking reads
// only: what is left is a number of operands. The answer is that of document 01's rules (scope's Bodies.antt) over what the
// words say.
#![tactic(auto)]

ghost use Rattle.std.specs.Prelude.{◌≡◌, [], ◌∷◌};
ghost use Rattle.scope.specs.Bodies.{take_all};
ghost use Rattle.type_table.specs.View.{view, both_codes};
ghost use Rattle.type_hierarchy.specs.Ranged.{Ranged};
ghost use Rattle.body_state.specs.State.{wanted_at_code, stack};
ghost use Rattle.body_take.specs.Took.{took_of};

use body_words::UNKNOWN;
use scope::refusals;
use type_fit::Fit;

// The operand's word, and how many operands are left in the frame; or the refusal's number.
#[derive(Clone, Copy)]
pub enum Take {
    Took(u32, u32),
    Fault(u64),
}

// One operand from the top: 31 where only null is wrong, 20 where it is missing or does not fit.
pub fn take_one(
    rows: &[u16],
    shared: &[u16],
    codes: &[u16],
    work: &[u32],
    w: u64,
    base: u32,
    height: u32,
    dead: bool,
) -> Take
    requires { Ranged rows.now (both_codes shared.now codes.now) }
    ensures { let types = view rows.now (both_codes shared.now codes.now) in
        let words = work.now in
        took_of words base result ≡ take_all types dead (wanted_at_code w ∷ []) (stack words base height) }
{
    if height == 0 {
        if dead {
            return Take::Took(UNKNOWN as u32, 0);
        }
        return Take::Fault(refusals::BAD_OPERAND);
    }
    let left = height - 1;
    let o = body_state::operand_word(work, base, left);
    let fit = body_fit::fit_word(rows, shared, codes, o, w);
    match fit {
        Fit::Fits => Take::Took(o as u32, left),
        Fit::ButForNull => Take::Fault(refusals::ONLY_NULL),
        Fit::Unfit => Take::Fault(refusals::BAD_OPERAND),
    }
}
