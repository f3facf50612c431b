// Where a branch out of a block goes: the place after the matching `end`, for each block and loop of a body, found in
// one pass and kept in a lent word for each byte. The open blocks are a linked list inside that same memory.
#![tactic(auto)]

ghost use Rattle.std.specs.Prelude.{◌≡◌, ◌<◌};
ghost use Rattle.scope.specs.Sizes.{most_bytes};
ghost use Rattle.scope.specs.Instructions.{instr_at};
ghost use Rattle.run_ends.specs.Noting.{KindIs, none_there, NotedAt};
ghost use Rattle.run_ends.specs.Matching.{Fillable, Filled};

use body_immediates::Instruction;

// What an instruction does to the open blocks: it opens one, closes the innermost one or stays inside it.
#[derive(Clone, Copy)]
pub enum Kind {
    Opens,
    Closes,
    Inside,
}

#[tactic(auto, using(crate::proofs::Notes::kind_exits))]
fn kind_of(i: Instruction) -> Kind
    ensures { KindIs i result }
{
    match i {
        Instruction::Block(_) => Kind::Opens,
        Instruction::Loop(_) => Kind::Opens,
        Instruction::End => Kind::Closes,
        _ => Kind::Inside,
    }
}

// An instruction of that kind at `at`, with `after` the place after it. At a block's place stands, while it is open,
// the word of the one around it, and then the place after its end. The answer: the word of the innermost open block, 0
// for none, else one more than its place; nothing where the function's own end was read.
fn note(ends: &mut [u16], innermost: u64, at: u64, after: u64, kind: Kind) -> Option<u64>
    requires { at < most_bytes }
    ensures { NotedAt ends.old ends.new innermost at after kind result }
{
    match kind {
        Kind::Inside => Some(innermost),
        Kind::Opens => {
            lent_u16::put(ends, at, innermost);
            Some(at + 1)
        }
        Kind::Closes => {
            if innermost == 0 {
                return None;
            }
            let around = lent_u16::word(ends, innermost - 1);
            lent_u16::put(ends, innermost - 1, after);
            Some(around)
        }
    }
}

// No instruction stands there.
fn none_at(s: &[u8], at: usize) -> bool
    ensures { result ≡ none_there (instr_at s.now at) }
{
    body_instruction::instruction_at(s, at).is_err()
}

// At the place of each block and loop from `first` on, the place after its matching end. The answer: the ends close
// what is open, and no instruction follows the last. There are no more instructions than bytes.
#[tactic(auto, using(crate::proofs::Filling::fill_exits))]
pub fn fill_ends(s: &[u8], first: usize, ends: &mut [u16]) -> bool
    requires { Fillable s.now ends.old first }
    ensures { Filled s.now ends.old ends.new first result }
{
    let mut next = first;
    let mut innermost: u64 = 0;
    for _ in 0..s.len() {
        let read = body_instruction::instruction_at(s, next);
        let Ok((i, after)) = read else {
            return false;
        };
        let kind = kind_of(i);
        let noted = note(ends, innermost, next as u64, after as u64, kind);
        let Some(word) = noted else {
            return none_at(s, after);
        };
        innermost = word;
        next = after;
    }
    false
}
