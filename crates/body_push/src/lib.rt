// The values that an instruction gives, put on the stack.
#![tactic(auto)]

ghost use Rattle.body_state.specs.State.{results_at};
ghost use Rattle.body_push.specs.Gives.{Long, BackLength, GivesLength, back_of, given_of, Space, PutBack, GivenTo};
ghost use Rattle.type_table.specs.View.{both_codes};

use body_state::Values;
use scope::sizes;

// How many values are put back.
fn back_length(list: Values, back: bool) -> u32
    ensures { BackLength list back result }
{
    if back { body_state::length_of(list) } else { 0 }
}

// How many types a word names: none or one.
fn gives_length(gives: u64) -> u32
    ensures { GivesLength gives result }
{
    if gives == 0 { 0 } else { 1 }
}

// The values of a list, where they are put back.
fn push_back(
    shared: &[u16],
    codes: &[u16],
    work: &mut [u32],
    list: Values,
    back: bool,
    base: u32,
    height: u32,
)
    requires { Space work.old base height (back_of (both_codes shared.now codes.now) list back) }
    ensures { PutBack work.old work.new base height (back_of (both_codes shared.now codes.now) list back) }
{
    if back {
        body_put::push_list(shared, codes, work, list, base, height);
    }
}

// The type that a word names, where it names one.
fn push_gives(work: &mut [u32], gives: u64, base: u32, height: u32)
    requires { Space work.old base height (results_at gives) }
    ensures { PutBack work.old work.new base height (results_at gives) }
{
    if gives != 0 {
        let code = (gives - 1) % body_state::CODE_BOUND;
        body_put::push(work, base, height, code + body_words::KNOWN);
    }
}

// The values of a list, where they are put back, and then one type.
pub fn give(
    shared: &[u16],
    codes: &[u16],
    work: &mut [u32],
    list: Values,
    back: bool,
    gives: u64,
    base: u32,
    height: u32,
) -> Option<u32>
    requires { Long work.old }
    ensures { GivenTo work.old work.new base height (given_of (both_codes shared.now codes.now) list back gives) result }
{
    let n = back_length(list, back);
    let g = gives_length(gives);
    let last = height as u64 + n as u64;
    let top = last + g as u64;
    if sizes::MOST_OPERANDS < base as u64 + top {
        return None;
    }
    push_back(shared, codes, work, list, back, base, height);
    push_gives(work, gives, base, last as u32);
    Some(top as u32)
}
