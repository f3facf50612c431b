// Constants, numeric codes, drop: what looks at no local and at no type of the table.
#![tactic(auto)]

ghost use Rattle.body_quick_take.specs.Telling.{Asked, Plainly};
ghost use Rattle.body_quick_values.specs.Values.{constant_byte, ConstantTold, AskedNumeric, Drops};

use body_quick_take::Done;
use body_words::KNOWN;

// The length of a float.
const F32_BYTES: usize = 4;

const F64_BYTES: usize = 8;

// How many bytes a constant takes after its code, whose number type has the code `kind`; or 0.
fn constant_size(s: &[u8], at: usize, kind: u64) -> u64
    ensures { ConstantTold kind s.now at result }
{
    match kind {
        0 => body_quick_read::size32(s, at),
        1 => body_quick_read::size64(s, at),
        2 => body_quick_read::float_size(s, at, F32_BYTES),
        3 => body_quick_read::float_size(s, at, F64_BYTES),
        _ => 0,
    }
}

// 41 i32.const, 42 i64.const, 43 f32.const, 44 f64.const
pub fn constant(
    s: &[u8],
    at: usize,
    kind: u64,
    work: &mut [u32],
    locals: u64,
    depth: u64,
    base: u64,
    top: u64,
    dead: u64,
) -> Done
    requires { Asked (constant_byte kind) s.now at work.old locals depth base top dead }
    ensures { Plainly s.now at work.old work.new locals depth base top dead result }
{
    let next = at + 1;
    let n = constant_size(s, next, kind);
    if n == 0 {
        return body_quick_take::not_told();
    }
    let size = 1 + n;
    let w = kind + KNOWN;
    body_quick_take::put(work, top, w, size)
}

// A numeric code.
pub fn numeric(
    b: u64,
    s: &[u8],
    at: usize,
    table: &[u8],
    work: &mut [u32],
    locals: u64,
    depth: u64,
    base: u64,
    top: u64,
    dead: u64,
) -> Done
    requires { AskedNumeric table.now b s.now at work.old locals depth base top dead }
    ensures { Plainly s.now at work.old work.new locals depth base top dead result }
{
    let row = body_numeric::numeric_row(table, b as u8);
    let operands = row.operands;
    let kind = row.kind;
    let result = row.result;
    if operands == 0 {
        return body_quick_take::not_told();
    }
    let w = kind + KNOWN;
    let v = result + KNOWN;
    let t = body_quick_take::taken_number(work, base, top, dead, w);
    if t == 0 {
        return body_quick_take::not_told();
    }
    let one = t - 1;
    if operands == 1 {
        return body_quick_take::put(work, one, v, 1);
    }
    let u = body_quick_take::taken_number(work, base, one, dead, w);
    if u == 0 {
        return body_quick_take::not_told();
    }
    let two = u - 1;
    body_quick_take::put(work, two, v, 1)
}

// 1A drop
pub fn drop_one(base: u64, top: u64, dead: u64) -> Done
    ensures { Drops base top dead result }
{
    if top <= base {
        return Done {
            top: top,
            size: dead,
        };
    }
    Done {
        top: top - 1,
        size: 1,
    }
}
