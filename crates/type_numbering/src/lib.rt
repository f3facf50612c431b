// Ranges of types, put into the rows of the lent table: what is below a type are the types that start in its range. Two walks:
// from the last type to the first each hands its size to its supertype, from the first to the last each takes its start from its
// supertype's end so far. What ranges there were before does not matter.
#![tactic(auto)]

ghost use Rattle.type_table.specs.View.{both_codes};
ghost use Rattle.type_numbering.specs.Ranges.{ParentIs, Clearable, Emptied, Sizeable, SizedOne, Numberable, Empty, Sized, Placeable, PlacedOne, Startable, Numbered};

// What stands above a type in the forest: its supertype. Both walks ask here and nowhere else.
#[tactic(auto, using(crate::proofs::Turns::parent_by))]
fn parent_of(rows: &[u16], shared: &[u16], codes: &[u16], x: u64) -> Option<u64>
    ensures { ParentIs rows.now (both_codes shared.now codes.now) x result }
{
    type_table::super_of(rows, shared, codes, x)
}

// The end words of n types become 0.
#[tactic(auto, using(crate::proofs::Walked::ends_exits))]
fn clear_ends(rows: &mut [u16], n: u64)
    requires { Clearable n rows.old }
    ensures { Emptied n rows.old rows.new }
{
    for x in 0..n {
        type_span::put_word(rows, x, type_span::END, 0);
    }
}

// One type is counted, and all that it counts is handed on to its supertype.
#[tactic(auto, using(crate::proofs::Turns::size_exits))]
fn size_one(rows: &mut [u16], shared: &[u16], codes: &[u16], k: u64)
    requires { Sizeable k (both_codes shared.now codes.now) rows.old }
    ensures { SizedOne k (both_codes shared.now codes.now) rows.old rows.new }
{
    let above = parent_of(rows, shared, codes, k);
    let size = type_span::end_of(rows, k) + 1;
    type_span::put_word(rows, k, type_span::END, size);
    let Some(q) = above else {
        return;
    };
    let part = type_span::end_of(rows, q) + size;
    type_span::put_word(rows, q, type_span::END, part);
}

// The end words of n types become their sizes.
#[tactic(auto, using(crate::proofs::Walked::sizes_exits))]
fn put_sizes(rows: &mut [u16], shared: &[u16], codes: &[u16], n: u64)
    requires { Empty n (both_codes shared.now codes.now) rows.old }
    ensures { Sized n (both_codes shared.now codes.now) rows.old rows.new }
{
    for k in (0..n).rev() {
        size_one(rows, shared, codes, k);
    }
}

// One type takes its place: behind its supertype and what is below that so far, or behind all that has a place. The answer is where
// the next type without a supertype begins.
#[tactic(auto, using(crate::proofs::Turns::place_exits))]
fn place_one(rows: &mut [u16], shared: &[u16], codes: &[u16], x: u64, next: u64) -> u64
    requires { Placeable x next (both_codes shared.now codes.now) rows.old }
    ensures { PlacedOne x next (both_codes shared.now codes.now) rows.old rows.new result }
{
    let above = parent_of(rows, shared, codes, x);
    let size = type_span::end_of(rows, x);
    let Some(q) = above else {
        type_span::put_word(rows, x, type_span::START, next);
        type_span::put_word(rows, x, type_span::END, next + 1);
        return next + size;
    };
    let start = type_span::end_of(rows, q);
    type_span::put_word(rows, x, type_span::START, start);
    type_span::put_word(rows, x, type_span::END, start + 1);
    type_span::put_word(rows, q, type_span::END, start + size);
    next
}

// The sizes in the end words become starts and ends.
#[tactic(auto, using(crate::proofs::Walked::starts_exits))]
fn put_starts(rows: &mut [u16], shared: &[u16], codes: &[u16], n: u64)
    requires { Startable n (both_codes shared.now codes.now) rows.old }
    ensures { Numbered n (both_codes shared.now codes.now) rows.old rows.new }
{
    let mut next: u64 = 1;
    for x in 0..n {
        next = place_one(rows, shared, codes, x, next);
    }
}

// The ranges of n types whose supertypes are earlier.
#[tactic(auto, using(crate::proofs::Walked::number_exits))]
pub fn number(rows: &mut [u16], shared: &[u16], codes: &[u16], n: u64)
    requires { Numberable n (both_codes shared.now codes.now) rows.old }
    ensures { Numbered n (both_codes shared.now codes.now) rows.old rows.new }
{
    clear_ends(rows, n);
    put_sizes(rows, shared, codes, n);
    put_starts(rows, shared, codes, n);
}
