// The moves of the instructions that make an object: struct.new and its default, both with a descriptor too.
#![tactic(auto)]

ghost use Rattle.std.specs.Prelude.{◌<◌};
ghost use Rattle.scope.specs.Instructions.{struct_new, struct_new_default, struct_new_desc, struct_new_default_desc};
ghost use Rattle.lent_u16.specs.Words.{word_limit};
ghost use Rattle.run_state.specs.Planned.{MakePlans};
ghost use Rattle.run_move_new.specs.Makes.{MakesGiven, MakesDefaults};
ghost use Rattle.type_table.specs.View.{both_codes};

use run_state::{Move, Reference};
use run_value::Value;
use scope::traps::{NO_ROOM, NULL_DESCRIPTOR};
use type_table::Shape;

// A descriptor is told by a word.
const WORDS: u64 = 65536;

// An object of type x with the descriptor word d, of the values that lie on the stack under the topmost `taken`.
fn given_move(
    rows: &[u16],
    shared: &[u16],
    codes: &[u16],
    n: u32,
    total: u32,
    height: u32,
    taken: u32,
    x: u64,
    d: u16,
) -> Move
    requires { x < word_limit }
    ensures { MakesGiven rows.now (both_codes shared.now codes.now) n total height taken x d result }
{
    let shape = type_table::shape_of(rows, shared, codes, x);
    match shape {
        Shape::Func(_, _, _, _) => Move::Astray,
        Shape::Struct(_, k) => {
            if (height as u64) < taken as u64 + k as u64 {
                return Move::Astray;
            }
            if run_heap::room_for(n, total, k) {
                return Move::Makes(taken, x as u16, d, k);
            }
            Move::Traps(NO_ROOM)
        }
    }
}

// The same of the defaults of its fields.
fn default_move(
    rows: &[u16],
    shared: &[u16],
    codes: &[u16],
    n: u32,
    total: u32,
    taken: u32,
    x: u64,
    d: u16,
) -> Move
    requires { x < word_limit }
    ensures { MakesDefaults rows.now (both_codes shared.now codes.now) n total taken x d result }
{
    let shape = type_table::shape_of(rows, shared, codes, x);
    match shape {
        Shape::Func(_, _, _, _) => Move::Astray,
        Shape::Struct(first, k) => {
            if !body_plan_defaults::all_default(shared, codes, first, k, true) {
                return Move::Astray;
            }
            if run_heap::room_for(n, total, k) {
                return Move::MakesDefault(taken, x as u16, d, first, k);
            }
            Move::Traps(NO_ROOM)
        }
    }
}

// struct.new x
pub fn new_move(
    rows: &[u16],
    shared: &[u16],
    codes: &[u16],
    n: u32,
    total: u32,
    height: u32,
    first: Option<Value>,
    x: u64,
) -> Move
    requires { x < word_limit }
    ensures { MakePlans rows.now (both_codes shared.now codes.now) n total height first (struct_new x) result }
{
    given_move(rows, shared, codes, n, total, height, 0, x, 0)
}

// struct.new_default x
pub fn new_default_move(
    rows: &[u16],
    shared: &[u16],
    codes: &[u16],
    n: u32,
    total: u32,
    height: u32,
    first: Option<Value>,
    x: u64,
) -> Move
    requires { x < word_limit }
    ensures { MakePlans rows.now (both_codes shared.now codes.now) n total height first (struct_new_default x) result }
{
    default_move(rows, shared, codes, n, total, 0, x, 0)
}

// struct.new_desc x: the descriptor is looked at before room.
pub fn new_desc_move(
    rows: &[u16],
    shared: &[u16],
    codes: &[u16],
    n: u32,
    total: u32,
    height: u32,
    first: Option<Value>,
    x: u64,
) -> Move
    requires { x < word_limit }
    ensures { MakePlans rows.now (both_codes shared.now codes.now) n total height first (struct_new_desc x) result }
{
    let reference = run_state::reference_of(first);
    match reference {
        Reference::Wrong => Move::Astray,
        Reference::Null => Move::Traps(NULL_DESCRIPTOR),
        Reference::To(d) => {
            if n as u64 <= d {
                return Move::Astray;
            }
            given_move(
                rows,
                shared,
                codes,
                n,
                total,
                height,
                1,
                x,
                ((d + 1) % WORDS) as u16,
            )
        }
    }
}

// struct.new_default_desc x
pub fn new_default_desc_move(
    rows: &[u16],
    shared: &[u16],
    codes: &[u16],
    n: u32,
    total: u32,
    height: u32,
    first: Option<Value>,
    x: u64,
) -> Move
    requires { x < word_limit }
    ensures { MakePlans rows.now (both_codes shared.now codes.now) n total height first (struct_new_default_desc x) result }
{
    let reference = run_state::reference_of(first);
    match reference {
        Reference::Wrong => Move::Astray,
        Reference::Null => Move::Traps(NULL_DESCRIPTOR),
        Reference::To(d) => {
            if n as u64 <= d {
                return Move::Astray;
            }
            default_move(
                rows,
                shared,
                codes,
                n,
                total,
                1,
                x,
                ((d + 1) % WORDS) as u16,
            )
        }
    }
}
