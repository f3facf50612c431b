// The operands and locals of a trial run, in lent memory of 64-bit words: what is on top, putting a value there, moving
// values down, and what a local holds. Each answer is what the words say (specs/Pile.antt). A value that is only moved in
// memory is moved by its words, its kind and its bits (docs/LAYOUT.md).
#![tactic(auto)]

ghost use Rattle.std.specs.Prelude.{◌≡◌};
ghost use Rattle.run_stack.specs.Pile.{Room, TopIs, Pushed, copied, Lower, Moved, LocalRoom, LocalIs, LocalSet, StartKind, Started};

use run_value::Value;
use run_values::layout;
use scope::sizes;

// The codes of references begin here, after those of the four number types; the odd ones may be null.
const REFERENCES: u64 = 4;

// The top one of h operands, above the lowest `base`.
pub fn top(m: &[u64], base: u32, h: u32) -> Option<Value>
    ensures { TopIs m.now base h result }
{
    if h == 0 {
        return None;
    }
    let last = h - 1;
    let at = sizes::VALUE * (base as u64 + last as u64);
    let kind = run_values::word64(m, at);
    let bits = run_values::word64(m, at + 1);
    let v = run_value::value_of(kind, bits);
    Some(v)
}

// A value on top.
pub fn push(m: &mut [u64], base: u32, h: u32, v: Value)
    requires { Room m.old base h 1 }
    ensures { Pushed m.old m.new base h v }
{
    run_value::put(m, base + h, v);
}

// Value `from`, put as value `to`.
fn move_one(m: &mut [u64], from: u32, to: u32)
    ensures { m.new ≡ copied m.old from to }
{
    let kind = run_values::kind_of(m, from);
    let bits = run_values::bits_of(m, from);
    run_values::put_value(m, to, kind, bits);
}

// The n values from `from` on, put from `to` on, the lowest first.
pub fn move_down(m: &mut [u64], from: u32, to: u32, n: u32)
    requires { Lower m.old from to n }
    ensures { Moved m.old m.new from to n }
{
    for i in 0..n {
        move_one(m, from + i, to + i);
    }
}

// What a local holds.
#[derive(Clone, Copy)]
pub enum HeldLocal {
    Absent,
    Unset,
    Is(Value),
}

pub fn held_local(locals: &[u64], count: u16, x: u64) -> HeldLocal
    ensures { LocalIs locals.now count x result }
{
    if x < count as u64 {
        let kind = run_values::kind_of(locals, x as u32);
        if kind == layout::NO_VALUE {
            return HeldLocal::Unset;
        }
        let bits = run_values::bits_of(locals, x as u32);
        let v = run_value::value_of(kind, bits);
        return HeldLocal::Is(v);
    }
    HeldLocal::Absent
}

// A value in a local that is there.
pub fn set_local(locals: &mut [u64], count: u16, x: u64, v: Value)
    requires { LocalRoom locals.old count }
    ensures { LocalSet locals.old locals.new count x v }
{
    if x < count as u64 {
        run_value::put(locals, x as u32, v);
    }
}

// The kind with which a local of that type starts: zero, null, or no value.
fn start_kind(code: u64) -> u64
    ensures { StartKind code result }
{
    if code < REFERENCES {
        return code + layout::I32;
    }
    if code % 2 == 1 {
        return layout::NULL;
    }
    layout::NO_VALUE
}

// What the locals hold at the start. The code of local i's type stands in the scratch at i.
pub fn start_locals(work: &[u32], locals: &mut [u64], count: u16)
    requires { LocalRoom locals.old count }
    ensures { Started work.now locals.old locals.new count }
{
    for i in 0..count {
        let code = lent_u32::word32(work, i as u64);
        let kind = start_kind(code % body_state::CODE_BOUND);
        run_values::put_value(locals, i as u32, kind, 0);
    }
}
