// Instructions after which another frame is the innermost: block and loop without a result or with a number, and the end of a block.
#![tactic(auto)]

ghost use Rattle.std.specs.Prelude.{◌≡◌, eqb};
ghost use Rattle.scope.specs.Memory.{flag};
ghost use Rattle.type_table.specs.View.{both_codes};
ghost use Rattle.type_hierarchy.specs.Ranged.{Ranged};
ghost use Rattle.body_state.specs.State.{context_at};
ghost use Rattle.body_quick_take.specs.Telling.{Asked};
ghost use Rattle.body_quick_frames.specs.Frames.{open_byte, BlockTold, FacingFrame, AskedFrame, AskedEnd, ToldFrame, PlainFrame};

use body_quick_read::Item;
use body_state::{CODE_BOUND, Check, Scene};
use body_words::KNOWN;
use scope::sizes;

// How many blocks are open then, the operands below the innermost frame and in all, 1 where unknowns lie below those of the frame;
// how many bytes the instruction takes, and none where it is not told here.
#[derive(Clone, Copy)]
pub struct Frame {
    pub depth: u64,
    pub base: u64,
    pub top: u64,
    pub dead: u64,
    pub size: u64,
}

fn not_told() -> Frame
    ensures { result ≡ record { depth = 0; base = 0; top = 0; dead = 0; size = 0 } }
{
    Frame {
        depth: 0,
        base: 0,
        top: 0,
        dead: 0,
        size: 0,
    }
}

// A block's type: 0 for no result, else one more than a number type's code.
fn block_at(s: &[u8], at: usize) -> Item
    ensures { BlockTold s.now at result }
{
    let b = body_quick_read::byte(s, at);
    match b {
        0x40 => Item { value: 0, size: 1 },
        0x7F => Item { value: 1, size: 1 },
        0x7E => Item { value: 2, size: 1 },
        0x7D => Item { value: 3, size: 1 },
        0x7C => Item { value: 4, size: 1 },
        _ => Item { value: 0, size: 0 },
    }
}

// 02 block, 03 loop
pub fn open(
    is_loop: bool,
    s: &[u8],
    at: usize,
    work: &mut [u32],
    locals: u64,
    depth: u64,
    base: u64,
    top: u64,
    dead: u64,
) -> Frame
    requires { AskedFrame (open_byte is_loop) s.now at work.old locals depth base top dead }
    ensures { PlainFrame s.now at work.old work.new locals depth base top dead result }
{
    let next = at + 1;
    let read = block_at(s, next);
    let result = read.value;
    let n = read.size;
    if n == 0 {
        return not_told();
    }
    if sizes::MOST_BLOCKS <= depth {
        return not_told();
    }
    let height = top - base;
    let check = Check {
        depth: depth as u16,
        base: base as u32,
        height: height as u32,
        dead: dead == 1,
    };
    body_frames::enter(work, check, is_loop, result as u32, at as u32);
    Frame {
        depth: depth + 1,
        base: top,
        top: top,
        dead: 0,
        size: 2,
    }
}

// 1 for a word of 1.
fn flag_of(w: u64) -> u64
    ensures { result ≡ flag (eqb w 1) }
{
    if w == 1 { 1 } else { 0 }
}

// The end of a block with a result: it is taken, nothing else is left, and it is put on the operands around.
fn end_with(
    s: &[u8],
    at: usize,
    rows: &[u16],
    shared: &[u16],
    codes: &[u16],
    work: &mut [u32],
    scene: Scene,
    depth: u64,
    base: u64,
    top: u64,
    dead: u64,
    w: u64,
    outer: u64,
    height: u64,
    unknowns: u64,
) -> Frame
    requires asked_end { AskedEnd s.now at work.old scene.locals depth base top dead w outer height unknowns }
    requires fact { w ≡ 0 → ⊥ }
    requires ranged { Ranged rows.now (both_codes shared.now codes.now) }
    ensures { let before = work.old in
        let context = context_at rows.now (both_codes shared.now codes.now) before scene in
        ToldFrame context s.now at before work.new scene.locals depth base top dead result }
{
    let code = (w - 1) % CODE_BOUND;
    let v = code + KNOWN;
    let t = body_quick_take::taken(rows, shared, codes, work, base, top, dead, v);
    let one = base + 1;
    if t == one {
        let below = outer + height;
        let done = body_quick_take::put(work, below, v, 1);
        let size = done.size;
        if size == 0 {
            return not_told();
        }
        let dead = flag_of(unknowns);
        return Frame {
            depth: depth - 1,
            base: outer,
            top: below + 1,
            dead: dead,
            size: 1,
        };
    }
    not_told()
}

// 0B end, of a block
pub fn close(
    s: &[u8],
    at: usize,
    rows: &[u16],
    shared: &[u16],
    codes: &[u16],
    work: &mut [u32],
    scene: Scene,
    depth: u64,
    base: u64,
    top: u64,
    dead: u64,
) -> Frame
    requires asked { Asked 0x0B s.now at work.old scene.locals depth base top dead }
    requires ranged { Ranged rows.now (both_codes shared.now codes.now) }
    ensures { let before = work.old in
        let context = context_at rows.now (both_codes shared.now codes.now) before scene in
        ToldFrame context s.now at before work.new scene.locals depth base top dead result }
{
    if depth == 0 {
        return not_told();
    }
    let k = depth + 1;
    let m = k as u32;
    let w = body_state::frame_word(work, m, body_state::RESULT);
    let outer = body_state::frame_word(work, m, body_state::BASE);
    let height = body_state::frame_word(work, m, body_state::HEIGHT);
    let unknowns = body_state::frame_word(work, m, body_state::DEAD);
    if w == 0 {
        if top == base {
            let below = outer + height;
            let dead = flag_of(unknowns);
            return Frame {
                depth: depth - 1,
                base: outer,
                top: below,
                dead: dead,
                size: 1,
            };
        }
        return not_told();
    }
    end_with(
        s, at, rows, shared, codes, work, scene, depth, base, top, dead, w, outer, height, unknowns,
    )
}

// One of them, by its first byte.
pub fn framed(
    b: u64,
    s: &[u8],
    at: usize,
    rows: &[u16],
    shared: &[u16],
    codes: &[u16],
    work: &mut [u32],
    scene: Scene,
    depth: u64,
    base: u64,
    top: u64,
    dead: u64,
) -> Frame
    requires facing_frame { FacingFrame b s.now at work.old scene.locals depth base top dead }
    requires ranged { Ranged rows.now (both_codes shared.now codes.now) }
    ensures { let before = work.old in
        let context = context_at rows.now (both_codes shared.now codes.now) before scene in
        ToldFrame context s.now at before work.new scene.locals depth base top dead result }
{
    let locals = scene.locals as u64;
    match b {
        0x02 => open(false, s, at, work, locals, depth, base, top, dead),
        0x03 => open(true, s, at, work, locals, depth, base, top, dead),
        0x0B => close(
            s, at, rows, shared, codes, work, scene, depth, base, top, dead,
        ),
        _ => not_told(),
    }
}
