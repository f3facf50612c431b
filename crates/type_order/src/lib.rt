// Type rule 6: which heap types are below which. Types are given by their codes, and the table is read as it stands, for any
// words: each answer is that of the rule's test (scope's Order.antt) over what the table says.
#![tactic(auto)]

ghost use Rattle.std.specs.Prelude.{◌≡◌};
ghost use Rattle.scope.specs.Syntax.{abstract};
ghost use Rattle.scope.specs.Order.{heap_below};
ghost use Rattle.type_abstract.specs.Heaps.{abstract_at};
ghost use Rattle.type_table.specs.View.{heap_at_code, view, both_codes};
ghost use Rattle.type_hierarchy.specs.Ranged.{Ranged};

use type_table::HeapKind;

// Whether an abstract type is below the heap type with the code b.
fn abstract_under(rows: &[u16], shared: &[u16], codes: &[u16], a: u64, b: u64) -> bool
    ensures { result ≡ heap_below (view rows.now (both_codes shared.now codes.now)) (abstract (abstract_at a)) (heap_at_code b) }
{
    let upper = type_table::heap_of(b);
    match upper {
        HeapKind::Abstract(k) => type_abstract::abstract_below(a, k),
        HeapKind::Defined(y) => type_hierarchy::is_bottom(rows, shared, codes, a, y),
        HeapKind::Exact(y) => type_hierarchy::is_bottom(rows, shared, codes, a, y),
    }
}

pub fn heap_below(rows: &[u16], shared: &[u16], codes: &[u16], a: u64, b: u64) -> bool
    requires { Ranged rows.now (both_codes shared.now codes.now) }
    ensures { result ≡ heap_below (view rows.now (both_codes shared.now codes.now)) (heap_at_code a) (heap_at_code b) }
{
    let lower = type_table::heap_of(a);
    match lower {
        HeapKind::Abstract(k) => abstract_under(rows, shared, codes, k, b),
        HeapKind::Defined(x) => type_named::named_under(rows, shared, codes, false, x, b),
        HeapKind::Exact(x) => type_named::named_under(rows, shared, codes, true, x, b),
    }
}
