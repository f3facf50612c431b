// The two instructions whose result depends on the reference that they take: ref.as_non_null and ref.get_desc.
#![tactic(auto)]

ghost use Rattle.std.specs.Prelude.{◌≡◌, cond};
ghost use Rattle.scope.specs.Syntax.{nullable, non_null, defined, exact};
ghost use Rattle.scope.specs.BodyRules.{value};
ghost use Rattle.scope.specs.Bodies.{known, fits, non_null_of, within_operands};
ghost use Rattle.type_table.specs.View.{view, both_codes};
ghost use Rattle.type_hierarchy.specs.Ranged.{Ranged};
ghost use Rattle.body_state.specs.State.{operand_at_code, stack, context_at, state_at, Upright, Stepped};
ghost use Rattle.body_references.specs.OneMore.{with_top, non_null_done, descriptor_done};

use body_state::{Check, Scene, Step};
use body_take::Take;
use scope::{refusals, sizes};
use type_fit::Fit;

// The operands' words, as an operand that was taken is held.
const UNKNOWN: u32 = body_words::UNKNOWN as u32;

const UNKNOWN_REFERENCE: u32 = body_words::UNKNOWN_REFERENCE as u32;

const REFERENCES: u32 = body_words::REFERENCES as u32;

// One operand on top of those that are left of the frame's.
fn put_operand(work: &mut [u32], locals: u16, check: Check, left: u32, o: u32) -> Step
    requires { Upright work.old locals check }
    ensures { let before = work.old in
        let after = work.new in
        let state = state_at before locals check in
        let put = with_top state (operand_at_code o) (stack before check.base left) in
        Stepped before after locals check.depth (within_operands put) result }
{
    let depth = check.depth;
    let base = check.base;
    let dead = check.dead;
    if sizes::MOST_OPERANDS < base as u64 + (left as u64 + 1) {
        return Step::Fault(refusals::OVERSIZE);
    }
    body_put::push(work, base, left, o as u64);
    Step::On(Check {
        depth: depth,
        base: base,
        height: left + 1,
        dead: dead,
    })
}

// The reference that was taken, not null.
fn non_null_word(o: u32) -> u32
    ensures { operand_at_code result ≡ non_null_of (operand_at_code o) }
{
    if o == UNKNOWN {
        return UNKNOWN_REFERENCE;
    }
    if o < REFERENCES {
        return o;
    }
    if o % 2 == 1 {
        return o - 1;
    }
    o
}

// "ref.as_non_null of an unknown is a non-null reference of unknown heap."
pub fn do_non_null(
    rows: &[u16],
    shared: &[u16],
    codes: &[u16],
    work: &mut [u32],
    scene: Scene,
    check: Check,
) -> Step
    requires upright { Upright work.old scene.locals check }
    requires ranged { Ranged rows.now (both_codes shared.now codes.now) }
    ensures { let before = work.old in
        let after = work.new in
        let context = context_at rows.now (both_codes shared.now codes.now) before scene in
        let want = non_null_done context (state_at before scene.locals check) in
        Stepped before after scene.locals check.depth want result }
{
    let locals = scene.locals;
    let base = check.base;
    let height = check.height;
    let dead = check.dead;
    let taken = body_take::take_one(
        rows,
        shared,
        codes,
        work,
        body_words::ANY_REFERENCE,
        base,
        height,
        dead,
    );
    match taken {
        Take::Fault(number) => Step::Fault(number),
        Take::Took(o, left) => {
            let word = non_null_word(o);
            put_operand(work, locals, check, left, word)
        }
    }
}

// "(ref y), exact when the operand is below (ref null (exact x))": of the three outcomes that is the first alone.
fn descriptor_word(rows: &[u16], shared: &[u16], codes: &[u16], o: u32, x: u16, y: u16) -> u32
    requires { Ranged rows.now (both_codes shared.now codes.now) }
    ensures { let types = view rows.now (both_codes shared.now codes.now) in
        let exactly = fits types (operand_at_code o) (value (nullable (exact x))) in
        operand_at_code result ≡ known (non_null (cond exactly (exact y) (defined y))) }
{
    let exact_x = 2 + (5 + 2 * (11 + 2 * x as u64));
    let fit = body_fit::fit_word(rows, shared, codes, o as u64, exact_x);
    let exact_y = 2 + (4 + 2 * (11 + 2 * y as u32));
    let plain_y = 2 + (4 + 2 * (10 + 2 * y as u32));
    match fit {
        Fit::Fits => exact_y,
        Fit::ButForNull => plain_y,
        Fit::Unfit => plain_y,
    }
}

// "ref.get_desc x takes (ref null x)."
pub fn do_descriptor(
    rows: &[u16],
    shared: &[u16],
    codes: &[u16],
    work: &mut [u32],
    scene: Scene,
    check: Check,
    x: u16,
    y: u16,
) -> Step
    requires upright { Upright work.old scene.locals check }
    requires ranged { Ranged rows.now (both_codes shared.now codes.now) }
    ensures { let before = work.old in
        let after = work.new in
        let context = context_at rows.now (both_codes shared.now codes.now) before scene in
        let want = descriptor_done x y context (state_at before scene.locals check) in
        Stepped before after scene.locals check.depth want result }
{
    let locals = scene.locals;
    let base = check.base;
    let height = check.height;
    let dead = check.dead;
    let wanted = 2 + (5 + 2 * (10 + 2 * x as u64));
    let taken = body_take::take_one(rows, shared, codes, work, wanted, base, height, dead);
    match taken {
        Take::Fault(number) => Step::Fault(number),
        Take::Took(o, left) => {
            let word = descriptor_word(rows, shared, codes, o, x, y);
            put_operand(work, locals, check, left, word)
        }
    }
}
