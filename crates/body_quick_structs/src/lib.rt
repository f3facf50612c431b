// Fields of structs, read and written.
#![tactic(auto)]

ghost use Rattle.type_table.specs.View.{view, both_codes};
ghost use Rattle.type_hierarchy.specs.Ranged.{Ranged};
ghost use Rattle.body_state.specs.State.{context_at};
ghost use Rattle.body_quick_take.specs.Telling.{AskedAfter, Told};
ghost use Rattle.body_quick_structs.specs.Fields.{FieldTold};

use body_plan_fields::Field;
use body_quick_take::Done;
use body_state::Scene;
use body_words::KNOWN;

// A field that is named by two numbers: the code of a reference to its struct, its own code, and how many bytes the numbers take;
// no bytes where there is no such field, or it is not told here.
#[derive(Clone, Copy)]
pub struct Place {
    pub object: u64,
    pub field: u64,
    pub size: u64,
}

fn field_at(s: &[u8], at: usize, rows: &[u16], shared: &[u16], codes: &[u16], types: u16) -> Place
    ensures { let table = view rows.now (both_codes shared.now codes.now) in
        FieldTold s.now at table types result }
{
    let read = body_quick_read::two_at(s, at);
    let x = read.first;
    let i = read.second;
    let n = read.size;
    let found = body_plan_fields::field_of(rows, shared, codes, types, x, i);
    match found {
        Field::Fault(_) => Place {
            object: 0,
            field: 0,
            size: 0,
        },
        Field::Is(field) => {
            let object = body_plan_parts::defined_code(x);
            Place {
                object: object,
                field: field,
                size: n,
            }
        }
    }
}

// FB 02 struct.get
pub fn get(
    s: &[u8],
    at: usize,
    rows: &[u16],
    shared: &[u16],
    codes: &[u16],
    work: &mut [u32],
    scene: Scene,
    depth: u64,
    base: u64,
    top: u64,
    dead: u64,
) -> Done
    requires asked_after { AskedAfter 0x02 s.now at work.old scene.locals depth base top dead }
    requires ranged { Ranged rows.now (both_codes shared.now codes.now) }
    ensures { let before = work.old in
        let context = context_at rows.now (both_codes shared.now codes.now) before scene in
        Told context s.now at before work.new scene.locals depth base top dead result }
{
    let next = at + 2;
    let types = scene.types;
    let place = field_at(s, next, rows, shared, codes, types);
    let object = place.object;
    let field = place.field;
    let n = place.size;
    if n == 0 {
        return body_quick_take::not_told();
    }
    let w = object + KNOWN;
    let t = body_quick_take::taken(rows, shared, codes, work, base, top, dead, w);
    if t == 0 {
        return body_quick_take::not_told();
    }
    let left = t - 1;
    let v = field / 2 + KNOWN;
    let size = 2 + n;
    body_quick_take::put(work, left, v, size)
}

// FB 05 struct.set
pub fn set(
    s: &[u8],
    at: usize,
    rows: &[u16],
    shared: &[u16],
    codes: &[u16],
    work: &[u32],
    scene: Scene,
    depth: u64,
    base: u64,
    top: u64,
    dead: u64,
) -> Done
    requires asked_after { AskedAfter 0x05 s.now at work.now scene.locals depth base top dead }
    requires ranged { Ranged rows.now (both_codes shared.now codes.now) }
    ensures { let before = work.now in
        let context = context_at rows.now (both_codes shared.now codes.now) before scene in
        Told context s.now at before before scene.locals depth base top dead result }
{
    let next = at + 2;
    let types = scene.types;
    let place = field_at(s, next, rows, shared, codes, types);
    let object = place.object;
    let field = place.field;
    let n = place.size;
    if n == 0 {
        return body_quick_take::not_told();
    }
    if field % 2 == 0 {
        return body_quick_take::not_told();
    }
    let v = field / 2 + KNOWN;
    let t = body_quick_take::taken(rows, shared, codes, work, base, top, dead, v);
    if t == 0 {
        return body_quick_take::not_told();
    }
    let one = t - 1;
    let w = object + KNOWN;
    let u = body_quick_take::taken(rows, shared, codes, work, base, one, dead, w);
    if u == 0 {
        return body_quick_take::not_told();
    }
    let left = u - 1;
    let size = 2 + n;
    Done {
        top: left,
        size: size,
    }
}
