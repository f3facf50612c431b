// Type rule 6 of a type that is named by its number, x or exact x: whether it is below a heap type. That is given by its code,
// and the table is read as it stands, for any words: the answer is that of the rule's test (scope's Order.antt) over what the
// table says.
#![tactic(auto)]

ghost use Rattle.std.specs.Prelude.{◌≡◌};
ghost use Rattle.scope.specs.Order.{heap_below};
ghost use Rattle.type_table.specs.View.{heap_at_code, view, both_codes};
ghost use Rattle.type_named.specs.Named.{named};
ghost use Rattle.type_hierarchy.specs.Ranged.{Ranged};

use type_table::HeapKind;

// Whether x, or exact x, is below the heap type with the code b. Below exact y there is no type but itself.
pub fn named_under(
    rows: &[u16],
    shared: &[u16],
    codes: &[u16],
    exactly: bool,
    x: u64,
    b: u64,
) -> bool
    requires { Ranged rows.now (both_codes shared.now codes.now) }
    ensures { result ≡ heap_below (view rows.now (both_codes shared.now codes.now)) (named exactly x) (heap_at_code b) }
{
    let upper = type_table::heap_of(b);
    match upper {
        HeapKind::Abstract(k) => type_hierarchy::kind_below(rows, shared, codes, x, k),
        HeapKind::Defined(y) => type_hierarchy::climbs_to(rows, shared, codes, x, y),
        HeapKind::Exact(y) => { if exactly { x == y } else { false } }
    }
}
