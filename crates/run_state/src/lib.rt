// Where a trial run stands: a few numbers by value, and the words of its memory. Each answer is what the words say
// (specs/Machines.antt), for any words. What an instruction comes to is told as a move (specs/Moved.antt).
#![tactic(auto)]

ghost use Rattle.std.specs.Prelude.{◌≡◌, ◌+◌, ◌*◌, leb};
ghost use Rattle.scope.specs.Sizes.{most_operands};
ghost use Rattle.scope.specs.Layout.{block_span};
ghost use Rattle.lent_u16.specs.Words.{WordAt};
ghost use Rattle.run_state.specs.Machines.{lower, start_stage, at_height};
ghost use Rattle.run_state.specs.Planned.{reference_at};

use run_value::Value;
use run_values::layout;
use scope::sizes;

// The place of the next instruction; how many objects and cells there are; how many operands lie below the innermost frame,
// and how many in it; how many blocks are open.
#[derive(Clone, Copy)]
pub struct Stage {
    pub place: usize,
    pub objects: u32,
    pub cells: u32,
    pub base: u32,
    pub height: u32,
    pub depth: u32,
}

// Before the first step, at the place of the first instruction: no object, no operand, no open block.
pub fn start(first: usize) -> Stage
    ensures { result ≡ start_stage first }
{
    Stage {
        place: first,
        objects: 0,
        cells: 0,
        base: 0,
        height: 0,
        depth: 0,
    }
}

// The stage with so many operands in the innermost frame.
pub fn at_height(stage: Stage, left: u32) -> Stage
    ensures { result ≡ at_height stage left }
{
    Stage {
        place: stage.place,
        objects: stage.objects,
        cells: stage.cells,
        base: stage.base,
        height: left,
        depth: stage.depth,
    }
}

// Whether there is no room for one more operand on so many of the innermost frame.
pub fn is_full(stage: Stage, left: u32) -> bool
    ensures { result ≡ leb most_operands (stage.base + left) }
{
    let base = stage.base;
    sizes::MOST_OPERANDS <= base as u64 + left as u64
}

// What an instruction inside its block comes to. The first number says how many operands it takes from the top. It leaves the
// rest; puts a value there; puts one in a local, or in an object's field; makes an object of a type with a descriptor (0
// none, else one more than its number) of so many values that lie next on the stack, or of the defaults of so many fields
// whose codes start in the table there; branches to a label; returns; traps. Astray: a value is missing or of the wrong
// kind.
#[derive(Clone, Copy)]
pub enum Move {
    Astray,
    Traps(u64),
    Leaves(u32),
    Gives(u32, Value),
    SetsLocal(u32, u64, Value),
    SetsField(u32, u32, u32, Value),
    Makes(u32, u16, u16, u32),
    MakesDefault(u32, u16, u16, u32, u32),
    Branches(u32, u64),
    Returns,
}

// What a step comes to: the run goes on, ends or traps.
#[derive(Clone, Copy)]
pub enum Stepped {
    Goes(Stage),
    Ends(Stage),
    Traps(u64),
    Astray,
}

// What an operand is as a reference: missing or a number; null; an object by its number.
#[derive(Clone, Copy)]
pub enum Reference {
    Wrong,
    Null,
    To(u64),
}

pub fn reference_of(top: Option<Value>) -> Reference
    ensures { result ≡ reference_at top }
{
    match top {
        None => Reference::Wrong,
        Some(v) => match v {
            Value::Null => Reference::Null,
            Value::Object(o) => Reference::To(o),
            _ => Reference::Wrong,
        },
    }
}

// A word of an open block; the outermost is 0.
pub fn block_word(blocks: &[u16], d: u32, k: u8) -> u64
    ensures { WordAt blocks.now (block_span * d + k) result }
{
    lent_u16::word(blocks, sizes::BLOCK * d as u64 + k as u64)
}

// How many operands lie below the frame in which so many blocks are open.
pub fn lower_of(blocks: &[u16], depth: u32) -> u32
    ensures { result ≡ lower blocks.now depth }
{
    if depth == 0 {
        return 0;
    }
    let below = block_word(blocks, depth - 1, layout::BELOW);
    below as u32
}
