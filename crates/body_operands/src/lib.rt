// Several operands of a body's check, taken from the top of the scratch's stack. Taking reads only: what is left is a number
// of operands. Each answer is that of document 01's rules (scope's Bodies.antt) over what the words say.
#![tactic(auto)]

ghost use Rattle.std.specs.Prelude.{◌≡◌, ◌++◌};
ghost use Rattle.scope.specs.BodyRules.{from_top};
ghost use Rattle.scope.specs.Bodies.{take_all};
ghost use Rattle.type_table.specs.View.{view, both_codes};
ghost use Rattle.type_hierarchy.specs.Ranged.{Ranged};
ghost use Rattle.body_state.specs.State.{wants_at, values_of, stack};
ghost use Rattle.body_operands.specs.Taking.{left_of, left_in};

use body_state::Values;
use body_take::Take;
use body_words::KNOWN;

// How many operands are left in the frame; or the refusal's number.
#[derive(Clone, Copy)]
pub enum Left {
    Is(u32),
    Fault(u64),
}

// One operand or none: 0 is none, else one more than the word of what is wanted.
#[tactic(auto, using(crate::proofs::OneOrNone::some_exits))]
fn take_some(
    rows: &[u16],
    shared: &[u16],
    codes: &[u16],
    work: &[u32],
    w: u64,
    base: u32,
    height: u32,
    dead: bool,
) -> Left
    requires { Ranged rows.now (both_codes shared.now codes.now) }
    ensures { let types = view rows.now (both_codes shared.now codes.now) in
        let words = work.now in
        left_of words base result ≡ left_in (take_all types dead (wants_at w) (stack words base height)) }
{
    if w == 0 {
        return Left::Is(height);
    }
    let taken = body_take::take_one(rows, shared, codes, work, w - 1, base, height, dead);
    match taken {
        Take::Took(_, left) => Left::Is(left),
        Take::Fault(number) => Left::Fault(number),
    }
}

// The types of a list, the last first.
#[tactic(auto, using(crate::proofs::Several::list_exits))]
pub fn take_list(
    rows: &[u16],
    shared: &[u16],
    codes: &[u16],
    work: &[u32],
    list: Values,
    base: u32,
    height: u32,
    dead: bool,
) -> Left
    requires { Ranged rows.now (both_codes shared.now codes.now) }
    ensures { let types = view rows.now (both_codes shared.now codes.now) in
        let words = work.now in
        let wants = from_top (values_of (both_codes shared.now codes.now) list) in
        left_of words base result ≡ left_in (take_all types dead wants (stack words base height)) }
{
    let mut left = height;
    for i in (0..body_state::length_of(list)).rev() {
        let code = body_state::code_of(shared, codes, list, i);
        let taken = body_take::take_one(rows, shared, codes, work, code + KNOWN, base, left, dead);
        match taken {
            Take::Fault(number) => {
                return Left::Fault(number);
            }
            Take::Took(_, fewer) => {
                left = fewer;
            }
        }
    }
    Left::Is(left)
}

// What a plan takes: one or none, one or none, and the types of a list.
pub fn take_plan(
    rows: &[u16],
    shared: &[u16],
    codes: &[u16],
    work: &[u32],
    top: u64,
    second: u64,
    rest: Values,
    base: u32,
    height: u32,
    dead: bool,
) -> Left
    requires { Ranged rows.now (both_codes shared.now codes.now) }
    ensures { let types = view rows.now (both_codes shared.now codes.now) in
        let words = work.now in
        let wants = wants_at top ++ (wants_at second ++ from_top (values_of (both_codes shared.now codes.now) rest)) in
        left_of words base result ≡ left_in (take_all types dead wants (stack words base height)) }
{
    let first = take_some(rows, shared, codes, work, top, base, height, dead);
    match first {
        Left::Fault(number) => Left::Fault(number),
        Left::Is(below) => {
            let next = take_some(rows, shared, codes, work, second, base, below, dead);
            match next {
                Left::Fault(number) => Left::Fault(number),
                Left::Is(left) => take_list(rows, shared, codes, work, rest, base, left, dead),
            }
        }
    }
}
