// Structs made, of the fields on the stack or of defaults, where the type has no descriptor.
#![tactic(auto)]

ghost use Rattle.type_table.specs.View.{view, both_codes};
ghost use Rattle.type_hierarchy.specs.Ranged.{Ranged};
ghost use Rattle.body_state.specs.State.{context_at};
ghost use Rattle.body_quick_take.specs.Telling.{AskedAfter, Told};
ghost use Rattle.body_quick_new.specs.Making.{Making, Made, Filled};

use body_operands::Left;
use body_plan_structs::Fields;
use body_quick_take::Done;
use body_state::{Scene, Values};
use body_words::KNOWN;

// Fields taken, the last first, and (ref (exact x)) put.
fn made_of(
    rows: &[u16],
    shared: &[u16],
    codes: &[u16],
    work: &mut [u32],
    first: u32,
    n: u32,
    x: u64,
    size: u64,
    base: u64,
    top: u64,
    dead: u64,
) -> Done
    requires making { Making x size base top }
    requires ranged { Ranged rows.now (both_codes shared.now codes.now) }
    ensures { let both = both_codes shared.now codes.now in
        Made (view rows.now both) both work.old work.new first n x size base top dead result }
{
    let height = top - base;
    let fields = Values::Fields(first, n);
    let taken = body_operands::take_list(
        rows,
        shared,
        codes,
        work,
        fields,
        base as u32,
        height as u32,
        dead == 1,
    );
    match taken {
        Left::Fault(_) => body_quick_take::not_told(),
        Left::Is(left) => {
            let made = body_plan_parts::exact_code(false, x);
            let w = made + KNOWN;
            let below = base + left as u64;
            body_quick_take::put(work, below, w, size)
        }
    }
}

// FB 00 struct.new
pub fn new(
    s: &[u8],
    at: usize,
    rows: &[u16],
    shared: &[u16],
    codes: &[u16],
    work: &mut [u32],
    scene: Scene,
    depth: u64,
    base: u64,
    top: u64,
    dead: u64,
) -> Done
    requires asked_after { AskedAfter 0x00 s.now at work.old scene.locals depth base top dead }
    requires ranged { Ranged rows.now (both_codes shared.now codes.now) }
    ensures { let before = work.old in
        let context = context_at rows.now (both_codes shared.now codes.now) before scene in
        Told context s.now at before work.new scene.locals depth base top dead result }
{
    let next = at + 2;
    let read = body_quick_read::number_at(s, next);
    let x = read.value;
    let n = read.size;
    if n == 0 {
        return body_quick_take::not_told();
    }
    let size = 2 + n;
    let types = scene.types;
    let found = body_plan_structs::undescribed(rows, shared, codes, types, x);
    match found {
        Fields::Fault(_) => body_quick_take::not_told(),
        Fields::Are(first, m) => made_of(
            rows, shared, codes, work, first, m, x, size, base, top, dead,
        ),
    }
}

// Each field has a default, and (ref (exact x)) is put.
fn filled(
    shared: &[u16],
    codes: &[u16],
    work: &mut [u32],
    first: u32,
    n: u32,
    x: u64,
    size: u64,
    base: u64,
    top: u64,
) -> Done
    requires { Making x size base top }
    ensures { let both = both_codes shared.now codes.now in
        Filled both work.old work.new first n x size top result }
{
    if !body_plan_defaults::all_default(shared, codes, first, n, true) {
        return body_quick_take::not_told();
    }
    let made = body_plan_parts::exact_code(false, x);
    let w = made + KNOWN;
    body_quick_take::put(work, top, w, size)
}

// FB 01 struct.new_default
pub fn new_default(
    s: &[u8],
    at: usize,
    rows: &[u16],
    shared: &[u16],
    codes: &[u16],
    work: &mut [u32],
    scene: Scene,
    depth: u64,
    base: u64,
    top: u64,
    dead: u64,
) -> Done
    requires asked_after { AskedAfter 0x01 s.now at work.old scene.locals depth base top dead }
    requires ranged { Ranged rows.now (both_codes shared.now codes.now) }
    ensures { let before = work.old in
        let context = context_at rows.now (both_codes shared.now codes.now) before scene in
        Told context s.now at before work.new scene.locals depth base top dead result }
{
    let next = at + 2;
    let read = body_quick_read::number_at(s, next);
    let x = read.value;
    let n = read.size;
    if n == 0 {
        return body_quick_take::not_told();
    }
    let size = 2 + n;
    let types = scene.types;
    let found = body_plan_structs::undescribed(rows, shared, codes, types, x);
    match found {
        Fields::Fault(_) => body_quick_take::not_told(),
        Fields::Are(first, m) => filled(shared, codes, work, first, m, x, size, base, top),
    }
}
