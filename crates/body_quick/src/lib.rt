// Most instructions, read and judged in one look: where one is plain to see and everything about it is in order. What is
// not told here, refusals among them, is read and judged by body_instruction and body_step; nothing is written then.
#![tactic(auto)]

ghost use Rattle.type_table.specs.View.{both_codes};
ghost use Rattle.type_hierarchy.specs.Ranged.{Ranged};
ghost use Rattle.body_state.specs.State.{context_at};
ghost use Rattle.body_quick_take.specs.Telling.{Asked, Told};
ghost use Rattle.body_quick_frames.specs.Frames.{ToldFrame};
ghost use Rattle.body_quick.specs.Runs.{Facing, Standing, Ready, Ran};

use body_progress::Progress;
use body_quick_frames::Frame;
use body_quick_take::Done;
use body_state::Scene;

// What stands after FB, by the number that follows it.
fn prefixed(
    s: &[u8],
    at: usize,
    rows: &[u16],
    shared: &[u16],
    codes: &[u16],
    work: &mut [u32],
    scene: Scene,
    depth: u64,
    base: u64,
    top: u64,
    dead: u64,
) -> Done
    requires asked { Asked 0xFB s.now at work.old scene.locals depth base top dead }
    requires ranged { Ranged rows.now (both_codes shared.now codes.now) }
    ensures { let before = work.old in
        let context = context_at rows.now (both_codes shared.now codes.now) before scene in
        Told context s.now at before work.new scene.locals depth base top dead result }
{
    let next = at + 1;
    let b = body_quick_read::byte(s, next);
    match b {
        0x00 => body_quick_new::new(
            s, at, rows, shared, codes, work, scene, depth, base, top, dead,
        ),
        0x01 => body_quick_new::new_default(
            s, at, rows, shared, codes, work, scene, depth, base, top, dead,
        ),
        0x02 => body_quick_structs::get(
            s, at, rows, shared, codes, work, scene, depth, base, top, dead,
        ),
        0x05 => body_quick_structs::set(
            s, at, rows, shared, codes, work, scene, depth, base, top, dead,
        ),
        _ => body_quick_take::not_told(),
    }
}

// One instruction within its frame, by its first byte.
#[tactic(auto, using(crate::proofs::Arms::arm_exits))]
fn within(
    b: u64,
    s: &[u8],
    at: usize,
    rows: &[u16],
    shared: &[u16],
    codes: &[u16],
    table: &[u8],
    work: &mut [u32],
    scene: Scene,
    depth: u64,
    base: u64,
    top: u64,
    dead: u64,
) -> Done
    requires facing { Facing table.now b s.now at work.old scene.locals depth base top dead }
    requires ranged { Ranged rows.now (both_codes shared.now codes.now) }
    ensures { let before = work.old in
        let context = context_at rows.now (both_codes shared.now codes.now) before scene in
        Told context s.now at before work.new scene.locals depth base top dead result }
{
    let locals = scene.locals as u64;
    match b {
        0x01 => Done { top: top, size: 1 },
        0x1A => body_quick_values::drop_one(base, top, dead),
        0x20 => body_quick_locals::get(s, at, work, locals, depth, base, top, dead),
        0x21 => body_quick_locals::set(
            s, at, rows, shared, codes, work, scene, depth, base, top, dead,
        ),
        0x22 => body_quick_locals::tee(
            s, at, rows, shared, codes, work, scene, depth, base, top, dead,
        ),
        0x41 => body_quick_values::constant(s, at, 0, work, locals, depth, base, top, dead),
        0x42 => body_quick_values::constant(s, at, 1, work, locals, depth, base, top, dead),
        0x43 => body_quick_values::constant(s, at, 2, work, locals, depth, base, top, dead),
        0x44 => body_quick_values::constant(s, at, 3, work, locals, depth, base, top, dead),
        0xFB => prefixed(
            s, at, rows, shared, codes, work, scene, depth, base, top, dead,
        ),
        256 => body_quick_take::not_told(),
        _ => body_quick_values::numeric(b, s, at, table, work, locals, depth, base, top, dead),
    }
}

// One instruction, within its frame or with the frame that it opens or ends.
fn told_at(
    s: &[u8],
    at: usize,
    rows: &[u16],
    shared: &[u16],
    codes: &[u16],
    table: &[u8],
    work: &mut [u32],
    scene: Scene,
    depth: u64,
    base: u64,
    top: u64,
    dead: u64,
) -> Frame
    requires standing { Standing table.now at work.old scene.locals depth base top dead }
    requires ranged { Ranged rows.now (both_codes shared.now codes.now) }
    ensures { let before = work.old in
        let context = context_at rows.now (both_codes shared.now codes.now) before scene in
        ToldFrame context s.now at before work.new scene.locals depth base top dead result }
{
    let b = body_quick_read::byte(s, at);
    let done = within(
        b, s, at, rows, shared, codes, table, work, scene, depth, base, top, dead,
    );
    let size = done.size;
    if size == 0 {
        return body_quick_frames::framed(
            b, s, at, rows, shared, codes, work, scene, depth, base, top, dead,
        );
    }
    Frame {
        depth: depth,
        base: base,
        top: done.top,
        dead: dead,
        size: size,
    }
}

// Instructions one after the other, as long as they are told here. There are no more of them than bytes.
pub fn go_on(
    s: &[u8],
    rows: &[u16],
    shared: &[u16],
    codes: &[u16],
    table: &[u8],
    work: &mut [u32],
    scene: Scene,
    from: Progress,
) -> Progress
    requires ready { Ready table.now work.old scene s.now from }
    requires ranged { Ranged rows.now (both_codes shared.now codes.now) }
    ensures { let both = both_codes shared.now codes.now in
        Ran rows.now both work.old work.new scene s.now from result }
{
    let mut next = from.next;
    let mut depth = from.depth;
    let mut base = from.base;
    let mut top = from.top;
    let mut dead = from.dead;
    for done in 0..s.len() {
        let told = told_at(
            s,
            next as usize,
            rows,
            shared,
            codes,
            table,
            work,
            scene,
            depth,
            base,
            top,
            dead,
        );
        if told.size == 0 {
            return Progress {
                count: from.count + done as u64,
                next,
                depth,
                base,
                top,
                dead,
            };
        }
        next += told.size;
        depth = told.depth;
        base = told.base;
        top = told.top;
        dead = told.dead;
    }
    Progress {
        count: from.count + s.len() as u64,
        next,
        depth,
        base,
        top,
        dead,
    }
}
