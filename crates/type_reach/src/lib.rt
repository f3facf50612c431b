// Type rule 1, first part: a number may name any type up to the end of its own group. Every number of a definition is
// looked at: its supertypes, its clauses, and those in its fields, parameters and results.
#![tactic(auto)]

ghost use Rattle.std.specs.Prelude.{◌≡◌, ℕ, List, ◌&&◌};
ghost use Rattle.scope.specs.Lists.{as_list};
ghost use Rattle.scope.specs.TypeRules.{heap_names, val_names, form_names, in_reach};
ghost use Rattle.type_table.specs.View.{heap_at_code, val_at_code, view, both_codes};
ghost use Rattle.lent_u16.specs.Words.{WordAt};
ghost use Rattle.type_reach.specs.Names.{all_below, link_below, codes_names, Limit};

use type_table::{HeapKind, Shape, Supers, ValKind};

// The place of the library's first code.
const SHARED: u32 = type_table::SHARED as u32;

// The number in the heap type with the code h, if there is one.
#[tactic(auto, using(crate::proofs::Naming::type_exits))]
pub fn heap_in_reach(h: u64, reach: u64) -> bool
    ensures { result ≡ all_below reach (heap_names (heap_at_code h)) }
{
    let heap = type_table::heap_of(h);
    match heap {
        HeapKind::Abstract(_) => true,
        HeapKind::Defined(x) => x < reach,
        HeapKind::Exact(x) => x < reach,
    }
}

#[tactic(auto, using(crate::proofs::Naming::type_exits))]
pub fn val_in_reach(c: u64, reach: u64) -> bool
    ensures { result ≡ all_below reach (val_names (val_at_code c)) }
{
    let val = type_table::val_of(c);
    match val {
        ValKind::Number(_) => true,
        ValKind::Ref(_, h) => heap_in_reach(h, reach),
    }
}

// From this reach on every word is the code of a type in reach.
const ALL_REACHED: u64 = 16384;

// More than any word.
const NO_LIMIT: u64 = 65536;

// The first code of a field, or of a value type, that names a type out of reach: codes rise with the number that they name, after
// those that name none.
#[tactic(auto, using(crate::proofs::Small::limit_exits))]
fn limit_of(fields: bool, reach: u64) -> u64
    ensures { Limit fields reach result }
{
    if ALL_REACHED <= reach {
        return NO_LIMIT;
    }
    let limit = 24 + 4 * reach;
    if fields { 2 * limit } else { limit }
}

// The n codes from i on, one by one, each as `word` reads it from the list.
fn list_in_reach<W: Fn(u64) -> u64>(word: W, fields: bool, i: u32, n: u32, reach: u64) -> bool
    ghost list: { List ℕ }
    requires callable { W.IsAlwaysCallable word }
    requires reads { (at r : ℕ) → W.post word at r → WordAt list at r }
    ensures { result ≡ all_below reach (codes_names fields list i n) }
{
    let limit = limit_of(fields, reach);
    let end = i as u64 + n as u64;
    (i as u64..end).all(|at| word(at) < limit)
}

// The n codes from i on. A type has all of its codes in one buffer: the walk over them does not ask which at each. Else each is looked
// up by its place: so the answer is right for any words of a row, those of no section too.
#[tactic(auto, using(crate::proofs::Walking::side_exits))]
fn codes_in_reach(shared: &[u16], codes: &[u16], fields: bool, i: u32, n: u32, reach: u64) -> bool
    ensures { result ≡ all_below reach (codes_names fields (both_codes shared.now codes.now) i n) }
{
    let end = i as u64 + n as u64;
    if end <= type_table::SHARED {
        list_in_reach(|at| lent_u16::word(codes, at), fields, i, n, reach)
    } else if SHARED <= i {
        list_in_reach(
            |at| lent_u16::word(shared, at),
            fields,
            i - SHARED,
            n,
            reach,
        )
    } else {
        list_in_reach(
            |at| type_table::code_word(shared, codes, at),
            fields,
            i,
            n,
            reach,
        )
    }
}

#[tactic(auto, using(crate::proofs::Naming::form_exits))]
fn form_in_reach(rows: &[u16], shared: &[u16], codes: &[u16], x: u64, reach: u64) -> bool
    ensures { result ≡ all_below reach (form_names (view rows.now (both_codes shared.now codes.now) x).form) }
{
    let shape = type_table::shape_of(rows, shared, codes, x);
    match shape {
        Shape::Struct(i, n) => codes_in_reach(shared, codes, true, i, n, reach),
        Shape::Func(i, n, k, m) => {
            if !codes_in_reach(shared, codes, false, i, n, reach) {
                return false;
            }
            codes_in_reach(shared, codes, false, k, m, reach)
        }
    }
}

#[tactic(auto, using(crate::proofs::Naming::super_exits))]
fn supers_in_reach(rows: &[u16], shared: &[u16], codes: &[u16], x: u64, reach: u64) -> bool
    ensures { result ≡ all_below reach (view rows.now (both_codes shared.now codes.now) x).supers }
{
    let supers = type_table::supers_of(rows, shared, codes, x);
    match supers {
        Supers::Nothing => true,
        Supers::One(p) => p < reach,
        Supers::Two(p, q) => { if p < reach { q < reach } else { false } }
    }
}

#[tactic(auto, using(crate::proofs::Naming::link_exits))]
fn link_in_reach(link: Option<u64>, reach: u64) -> bool
    ensures { result ≡ link_below reach link }
{
    match link {
        None => true,
        Some(x) => x < reach,
    }
}

#[tactic(auto, using(crate::proofs::Naming::clause_exits))]
fn clauses_in_reach(rows: &[u16], shared: &[u16], codes: &[u16], x: u64, reach: u64) -> bool
    ensures { let d = view rows.now (both_codes shared.now codes.now) x in
        result ≡ (all_below reach (as_list d.describes) && all_below reach (as_list d.descriptor)) }
{
    let described = type_table::describes_of(rows, shared, codes, x);
    if !link_in_reach(described, reach) {
        return false;
    }
    let descriptor = type_table::descriptor_of(rows, shared, codes, x);
    link_in_reach(descriptor, reach)
}

#[tactic(auto, using(crate::proofs::Naming::reach_exits))]
pub fn in_reach(rows: &[u16], shared: &[u16], codes: &[u16], x: u64) -> bool
    ensures { result ≡ in_reach (view rows.now (both_codes shared.now codes.now)) x }
{
    let reach = type_table::reach_of(rows, shared, codes, x);
    if !supers_in_reach(rows, shared, codes, x, reach) {
        return false;
    }
    if !clauses_in_reach(rows, shared, codes, x, reach) {
        return false;
    }
    form_in_reach(rows, shared, codes, x, reach)
}
