// Where a body's check stands, kept in lent scratch: the locals and which of them are set, the operands, the open blocks.
// Each answer is what the scratch's words say (specs/State.antt), for any words.
#![tactic(auto)]

ghost use Rattle.std.specs.Prelude.{◌≡◌, ◌+◌, ◌*◌};
ghost use Rattle.lent_u32.specs.Scratch.{Word32At};
ghost use Rattle.body_state.specs.Layout.{operands_from, frames_from, frame_span};
ghost use Rattle.body_state.specs.State.{is_set_at, LocalOf, LengthOf, CodeOf, ResultsOf};
ghost use Rattle.type_table.specs.View.{both_codes};

use scope::sizes;

// Where in the scratch the words begin, as specs/Layout.antt has it. A local's type stands at its number; then, by the number
// of a local, the frame in which it was set, and that frame's stamp; then the operands; then the frames.
pub const MARKS: u64 = sizes::MOST_LOCALS;

pub const STAMPS: u64 = MARKS + sizes::MOST_LOCALS;

pub const OPERANDS: u64 = STAMPS + sizes::MOST_LOCALS;

pub const FRAMES: u64 = OPERANDS + sizes::MOST_OPERANDS;

// The words of a frame: 1 for a loop, its result (0 none, else one more than its code), and of what stands around it the
// operands below, how many there are, whether they may be unknown; the stamp.
pub const FRAME: u64 = 8;

pub const LOOP: u8 = 0;

pub const RESULT: u8 = 1;

pub const BASE: u8 = 2;

pub const HEIGHT: u8 = 3;

pub const DEAD: u8 = 4;

pub const STAMP: u8 = 5;

// No code of a type is as great as this.
pub const CODE_BOUND: u64 = 1048576;

// How many blocks are open; how many operands lie below the innermost frame, and how many in it; whether unknowns lie
// below those.
#[derive(Clone, Copy)]
pub struct Check {
    pub depth: u16,
    pub base: u32,
    pub height: u32,
    pub dead: bool,
}

// What a body is checked against beside the table: how many types and locals there are; where the codes of the results
// begin, and how many there are.
#[derive(Clone, Copy)]
pub struct Scene {
    pub types: u16,
    pub locals: u16,
    pub first: u32,
    pub results: u32,
}

// A list of value types: that many codes of the table, the types of that many fields, or one type.
#[derive(Clone, Copy)]
pub enum Values {
    Types(u32, u32),
    Fields(u32, u32),
    One(u32),
}

// What an instruction that gives values takes and gives. It takes `top`, then `second` (0 nothing, else one more than the
// word of what is wanted), then the types of `rest` from the last. It gives those of `rest`, where they are put back, and
// one more type (0 none, else one more than its code). It sets a local (0 none, else one more than its number). After it
// the stack may yield unknowns.
#[derive(Clone, Copy)]
pub struct Plain {
    pub top: u64,
    pub second: u64,
    pub rest: Values,
    pub back: bool,
    pub gives: u64,
    pub marks: u64,
    pub stops: bool,
}

// What an instruction does to the stack, or a refusal's number: ref.as_non_null gives the reference that it takes, not
// null; ref.get_desc x gives the descriptor, whose type is the second number, of a reference to the first.
#[derive(Clone, Copy)]
pub enum Planned {
    Plain(Plain),
    NonNull,
    Descriptor(u16, u16),
    Fault(u64),
}

// What comes of an instruction: the check goes on; the last `end` was read; or a refusal's number.
#[derive(Clone, Copy)]
pub enum Step {
    On(Check),
    Finished,
    Fault(u64),
}

// A word of frame m: the function's own is 1, that of the outermost block 2.
pub fn frame_word(work: &[u32], m: u32, k: u8) -> u64
    ensures { Word32At work.now (frames_from + (frame_span * m + k)) result }
{
    lent_u32::word32(work, FRAMES + (FRAME * m as u64 + k as u64))
}

// The operand at a place from the bottom of the stack.
pub fn operand_word(work: &[u32], base: u32, i: u32) -> u64
    ensures { Word32At work.now (operands_from + (base + i)) result }
{
    lent_u32::word32(work, OPERANDS + (base as u64 + i as u64))
}

// Whether local i was set in one of the frames up to number m.
pub fn is_set(work: &[u32], m: u32, i: u32) -> bool
    ensures { result ≡ is_set_at work.now m i }
{
    let n = lent_u32::word32(work, MARKS + i as u64);
    if n == 0 {
        return false;
    }
    if (m as u64) < n {
        return false;
    }
    let stamp = frame_word(work, n as u32, STAMP);
    let kept = lent_u32::word32(work, STAMPS + i as u64);
    stamp == kept
}

pub fn local_of(work: &[u32], locals: u16, x: u64) -> Option<u64>
    ensures { LocalOf work.now locals x result }
{
    if x < locals as u64 {
        let code = lent_u32::word32(work, x);
        return Some(code % CODE_BOUND);
    }
    None
}

// How many types a list has.
pub fn length_of(values: Values) -> u32
    ensures { LengthOf values result }
{
    match values {
        Values::Types(_, n) => n,
        Values::Fields(_, n) => n,
        Values::One(_) => 1,
    }
}

// The code of a list's type at i, where there is one.
pub fn code_of(shared: &[u16], codes: &[u16], values: Values, i: u32) -> u64
    ensures { CodeOf (both_codes shared.now codes.now) values i result }
{
    match values {
        Values::Types(first, _) => type_table::code_word(shared, codes, first as u64 + i as u64),
        Values::Fields(first, _) => {
            let field = type_table::code_word(shared, codes, first as u64 + i as u64);
            field / 2
        }
        Values::One(c) => c as u64 % CODE_BOUND,
    }
}

// The results of frame m, which is a block's or a loop's.
pub fn results_of(work: &[u32], m: u32) -> Values
    ensures { ResultsOf work.now m result }
{
    let w = frame_word(work, m, RESULT);
    if w == 0 {
        return Values::Types(0, 0);
    }
    Values::One((w - 1) as u32)
}
