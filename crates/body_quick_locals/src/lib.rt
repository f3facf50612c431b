// Locals: read, set, or set and kept on the stack.
#![tactic(auto)]

ghost use Rattle.type_table.specs.View.{both_codes};
ghost use Rattle.type_hierarchy.specs.Ranged.{Ranged};
ghost use Rattle.body_state.specs.State.{context_at};
ghost use Rattle.body_quick_take.specs.Telling.{Asked, Told, Plainly};
ghost use Rattle.body_quick_locals.specs.Locals.{LocalTold, Setting, PutAndSet};

use body_quick_take::Done;
use body_state::{CODE_BOUND, Scene};
use body_words::KNOWN;

// A local that is named by a number: that number, the code of its type, and how many bytes the number takes; no bytes where there
// is no such local, or it is not told here.
#[derive(Clone, Copy)]
pub struct Named {
    pub number: u64,
    pub code: u64,
    pub size: u64,
}

fn local_at(s: &[u8], at: usize, work: &[u32], locals: u64) -> Named
    ensures { LocalTold s.now at work.now locals result }
{
    let read = body_quick_read::number_at(s, at);
    let x = read.value;
    let n = read.size;
    if locals <= x {
        return Named {
            number: 0,
            code: 0,
            size: 0,
        };
    }
    let word = lent_u32::word32(work, x);
    Named {
        number: x,
        code: word % CODE_BOUND,
        size: n,
    }
}

// 20 local.get
pub fn get(
    s: &[u8],
    at: usize,
    work: &mut [u32],
    locals: u64,
    depth: u64,
    base: u64,
    top: u64,
    dead: u64,
) -> Done
    requires { Asked 0x20 s.now at work.old locals depth base top dead }
    ensures { Plainly s.now at work.old work.new locals depth base top dead result }
{
    let next = at + 1;
    let local = local_at(s, next, work, locals);
    let x = local.number;
    let n = local.size;
    let code = local.code;
    if n == 0 {
        return body_quick_take::not_told();
    }
    let m = depth + 1;
    if !body_state::is_set(work, m as u32, x as u32) {
        return body_quick_take::not_told();
    }
    let size = 1 + n;
    let w = code + KNOWN;
    body_quick_take::put(work, top, w, size)
}

// 21 local.set
pub fn set(
    s: &[u8],
    at: usize,
    rows: &[u16],
    shared: &[u16],
    codes: &[u16],
    work: &mut [u32],
    scene: Scene,
    depth: u64,
    base: u64,
    top: u64,
    dead: u64,
) -> Done
    requires asked { Asked 0x21 s.now at work.old scene.locals depth base top dead }
    requires ranged { Ranged rows.now (both_codes shared.now codes.now) }
    ensures { let before = work.old in
        let context = context_at rows.now (both_codes shared.now codes.now) before scene in
        Told context s.now at before work.new scene.locals depth base top dead result }
{
    let next = at + 1;
    let locals = scene.locals;
    let local = local_at(s, next, work, locals as u64);
    let x = local.number;
    let n = local.size;
    let code = local.code;
    if n == 0 {
        return body_quick_take::not_told();
    }
    let w = code + KNOWN;
    let t = body_quick_take::taken(rows, shared, codes, work, base, top, dead, w);
    if t == 0 {
        return body_quick_take::not_told();
    }
    let m = depth + 1;
    let marks = x + 1;
    body_marks::mark(work, locals, m as u32, marks);
    let left = t - 1;
    let size = 1 + n;
    Done {
        top: left,
        size: size,
    }
}

// A value put, and the local set in frame m that is named by one less than `marks`; nothing where there is no room.
fn put_and_set(
    work: &mut [u32],
    locals: u16,
    m: u32,
    marks: u64,
    top: u64,
    w: u64,
    size: u64,
) -> Done
    requires { Setting work.old locals m size }
    ensures { PutAndSet work.old work.new locals m marks top w size result }
{
    let done = body_quick_take::put(work, top, w, size);
    let told = done.size;
    if told == 0 {
        return done;
    }
    body_marks::mark(work, locals, m, marks);
    done
}

// 22 local.tee
pub fn tee(
    s: &[u8],
    at: usize,
    rows: &[u16],
    shared: &[u16],
    codes: &[u16],
    work: &mut [u32],
    scene: Scene,
    depth: u64,
    base: u64,
    top: u64,
    dead: u64,
) -> Done
    requires asked { Asked 0x22 s.now at work.old scene.locals depth base top dead }
    requires ranged { Ranged rows.now (both_codes shared.now codes.now) }
    ensures { let before = work.old in
        let context = context_at rows.now (both_codes shared.now codes.now) before scene in
        Told context s.now at before work.new scene.locals depth base top dead result }
{
    let next = at + 1;
    let locals = scene.locals;
    let local = local_at(s, next, work, locals as u64);
    let x = local.number;
    let n = local.size;
    let code = local.code;
    if n == 0 {
        return body_quick_take::not_told();
    }
    let w = code + KNOWN;
    let t = body_quick_take::taken(rows, shared, codes, work, base, top, dead, w);
    if t == 0 {
        return body_quick_take::not_told();
    }
    let left = t - 1;
    let size = 1 + n;
    let m = depth + 1;
    let marks = x + 1;
    put_and_set(work, locals, m as u32, marks, left, w, size)
}
