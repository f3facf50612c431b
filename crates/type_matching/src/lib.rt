// Type rule 2: whether a type's form matches its supertype's. Fields and value types are codes that lie one after the
// other in the table; each answer is the rule's (scope's TypeRules.antt) over what the table says, for any words.
#![tactic(auto)]

ghost use Rattle.std.specs.Prelude.{◌≡◌, ℕ, List};
ghost use Rattle.scope.specs.Syntax.{struct, func};
ghost use Rattle.scope.specs.Order.{val_below};
ghost use Rattle.scope.specs.TypeRules.{field_matches, form_matches, matches_super};
ghost use Rattle.type_table.specs.View.{val_at_code, field_at_code, codes_at, view, both_codes};
ghost use Rattle.lent_u16.specs.Words.{WordAt};
ghost use Rattle.type_matching.specs.Lists.{code_matches, enough, codes_match};
ghost use Rattle.type_hierarchy.specs.Ranged.{Ranged};

use type_fit::Fit;
use type_table::Shape;

// The place of the library's first code.
const SHARED: u32 = type_table::SHARED as u32;

// Of the three outcomes rule 2 relies on the first alone: a subtype fits. A type that would fit if it could not be null is no
// subtype, and is 8 like any other that does not fit.
#[tactic(auto, using(type_fit::proofs::Outcomes::outcomes))]
fn subtype(rows: &[u16], shared: &[u16], codes: &[u16], a: u64, b: u64) -> bool
    requires { Ranged rows.now (both_codes shared.now codes.now) }
    ensures { result ≡ val_below (view rows.now (both_codes shared.now codes.now)) (val_at_code a) (val_at_code b) }
{
    let fit = type_fit::val_fit(rows, shared, codes, a, b);
    match fit {
        Fit::Fits => true,
        Fit::ButForNull => false,
        Fit::Unfit => false,
    }
}

// Mutability is equal; a fixed field's type is a subtype, a mutable one's is identical.
#[tactic(auto, using(crate::proofs::Walking::field_exits))]
fn field_matches(rows: &[u16], shared: &[u16], codes: &[u16], a: u64, b: u64) -> bool
    requires { Ranged rows.now (both_codes shared.now codes.now) }
    ensures { result ≡ field_matches (view rows.now (both_codes shared.now codes.now)) (field_at_code a) (field_at_code b) }
{
    if a % 2 == 1 {
        if b % 2 == 1 {
            type_fit::same_val(a / 2, b / 2)
        } else {
            false
        }
    } else {
        if b % 2 == 1 {
            false
        } else {
            subtype(rows, shared, codes, a / 2, b / 2)
        }
    }
}

// Two codes against each other: those of fields, or of value types.
#[tactic(auto, using(crate::proofs::Walking::code_exits))]
fn code_matches(rows: &[u16], shared: &[u16], codes: &[u16], fields: bool, a: u64, b: u64) -> bool
    requires { Ranged rows.now (both_codes shared.now codes.now) }
    ensures { result ≡ code_matches fields (view rows.now (both_codes shared.now codes.now)) a b }
{
    if fields {
        field_matches(rows, shared, codes, a, b)
    } else {
        subtype(rows, shared, codes, a, b)
    }
}

// Of fields a subtype has at least as many, of value types just as many.
fn enough(fields: bool, n: u32, m: u32) -> bool
    ensures { result ≡ enough fields n m }
{
    if fields { m <= n } else { n == m }
}

// The n codes from i on against the m codes from j on, one by one, each as `word` reads it from the list.
fn list_matches<W: Fn(u64) -> u64>(
    rows: &[u16],
    shared: &[u16],
    codes: &[u16],
    word: W,
    fields: bool,
    i: u32,
    n: u32,
    j: u32,
    m: u32,
) -> bool
    ghost list: { List ℕ }
    requires ranged { Ranged rows.now (both_codes shared.now codes.now) }
    requires callable { W.IsAlwaysCallable word }
    requires reads { (at r : ℕ) → W.post word at r → WordAt list at r }
    ensures { let types = view rows.now (both_codes shared.now codes.now) in
        result ≡ codes_match fields types list i n j m }
{
    enough(fields, n, m)
        && (0..m as u64)
            .map(|k| (word(i as u64 + k), word(j as u64 + k)))
            .all(|(a, b)| code_matches(rows, shared, codes, fields, a, b))
}

// The n codes from i on against the m codes from j on. A type has all of its codes in one buffer: where both types are of one section,
// the walk does not ask which at each; an add-on's type against a library's, say, has each code looked up by its place.
#[tactic(auto, using(crate::proofs::Walking::side_exits))]
fn codes_match(
    rows: &[u16],
    shared: &[u16],
    codes: &[u16],
    fields: bool,
    i: u32,
    n: u32,
    j: u32,
    m: u32,
) -> bool
    requires { Ranged rows.now (both_codes shared.now codes.now) }
    ensures { let both = both_codes shared.now codes.now in
        result ≡ codes_match fields (view rows.now both) both i n j m }
{
    let end = i as u64 + n as u64;
    let up_end = j as u64 + m as u64;
    if end <= type_table::SHARED && up_end <= type_table::SHARED {
        let word = |at: u64| lent_u16::word(codes, at);
        list_matches(rows, shared, codes, word, fields, i, n, j, m)
    } else if SHARED <= i && SHARED <= j {
        let word = |at: u64| lent_u16::word(shared, at);
        list_matches(
            rows,
            shared,
            codes,
            word,
            fields,
            i - SHARED,
            n,
            j - SHARED,
            m,
        )
    } else {
        let word = |at: u64| type_table::code_word(shared, codes, at);
        list_matches(rows, shared, codes, word, fields, i, n, j, m)
    }
}

// A struct of n fields from i on against the form of p.
#[tactic(auto, using(crate::proofs::Forms::upper_exits))]
fn struct_matches(rows: &[u16], shared: &[u16], codes: &[u16], i: u32, n: u32, p: u64) -> bool
    requires { Ranged rows.now (both_codes shared.now codes.now) }
    ensures { let types = view rows.now (both_codes shared.now codes.now) in
        let fields = codes_at field_at_code (both_codes shared.now codes.now) i n in
        result ≡ form_matches types (struct fields) (types p).form }
{
    let upper = type_table::shape_of(rows, shared, codes, p);
    match upper {
        Shape::Struct(j, m) => codes_match(rows, shared, codes, true, i, n, j, m),
        Shape::Func(_, _, _, _) => false,
    }
}

// A function of n parameters from i on and o results from k on against the form of p: parameters against, results along.
#[tactic(auto, using(crate::proofs::Forms::upper_exits))]
fn func_matches(
    rows: &[u16],
    shared: &[u16],
    codes: &[u16],
    i: u32,
    n: u32,
    k: u32,
    o: u32,
    p: u64,
) -> bool
    requires { Ranged rows.now (both_codes shared.now codes.now) }
    ensures { let types = view rows.now (both_codes shared.now codes.now) in
        let parameters = codes_at val_at_code (both_codes shared.now codes.now) i n in
        let results = codes_at val_at_code (both_codes shared.now codes.now) k o in
        result ≡ form_matches types (func parameters results) (types p).form }
{
    let upper = type_table::shape_of(rows, shared, codes, p);
    match upper {
        Shape::Struct(_, _) => false,
        Shape::Func(j, m, l, q) => {
            if !codes_match(rows, shared, codes, false, j, m, i, n) {
                return false;
            }
            codes_match(rows, shared, codes, false, k, o, l, q)
        }
    }
}

#[tactic(auto, using(crate::proofs::Forms::lower_exits))]
pub fn form_matches(rows: &[u16], shared: &[u16], codes: &[u16], x: u64, p: u64) -> bool
    requires { Ranged rows.now (both_codes shared.now codes.now) }
    ensures { let types = view rows.now (both_codes shared.now codes.now) in
        result ≡ form_matches types (types x).form (types p).form }
{
    let lower = type_table::shape_of(rows, shared, codes, x);
    match lower {
        Shape::Struct(i, n) => struct_matches(rows, shared, codes, i, n, p),
        Shape::Func(i, n, k, o) => func_matches(rows, shared, codes, i, n, k, o, p),
    }
}

#[tactic(auto, using(crate::proofs::Forms::super_exits))]
pub fn matches_super(rows: &[u16], shared: &[u16], codes: &[u16], x: u64) -> bool
    requires { Ranged rows.now (both_codes shared.now codes.now) }
    ensures { result ≡ matches_super (view rows.now (both_codes shared.now codes.now)) x }
{
    let above = type_table::super_of(rows, shared, codes, x);
    match above {
        None => true,
        Some(p) => form_matches(rows, shared, codes, x, p),
    }
}
