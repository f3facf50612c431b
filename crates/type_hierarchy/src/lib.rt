// Where a type stands in its hierarchy: up its declared supertypes to another; by its form its kind, struct or func, with the
// abstract types above that; and which abstract type is the bottom. Each answer is by scope's Order.antt over what the table says.
// Whoever asks for the way up has given the table its ranges (specs/Ranged.antt); of all else it is read as it stands.
#![tactic(auto)]

ghost use Rattle.std.specs.Prelude.{◌≡◌};
ghost use Rattle.scope.specs.Sizes.{most_steps};
ghost use Rattle.scope.specs.Abstract.{same_abstract};
ghost use Rattle.scope.specs.Memory.{abstract_code};
ghost use Rattle.scope.specs.Order.{kind_of, bottom_of, abstract_below, climbs};
ghost use Rattle.type_abstract.specs.Heaps.{abstract_at};
ghost use Rattle.type_table.specs.View.{view, both_codes};
ghost use Rattle.type_hierarchy.specs.Ranged.{Ranged};

// From x up the declared supertypes to y: x is y, or starts in the range of y.
pub fn climbs_to(rows: &[u16], shared: &[u16], codes: &[u16], x: u64, y: u64) -> bool
    requires { Ranged rows.now (both_codes shared.now codes.now) }
    ensures { result ≡ climbs most_steps (view rows.now (both_codes shared.now codes.now)) x y }
{
    if x == y {
        return true;
    }
    let start = type_span::start_of(rows, x);
    if start < type_span::start_of(rows, y) {
        return false;
    }
    start < type_span::end_of(rows, y)
}

// The number of struct or func: what a type is below by its form.
pub fn kind_of(rows: &[u16], shared: &[u16], codes: &[u16], x: u64) -> u64
    ensures { result ≡ abstract_code (kind_of (view rows.now (both_codes shared.now codes.now) x).form) }
{
    if type_table::is_struct(rows, shared, codes, x) {
        type_abstract::STRUCT as u64
    } else {
        type_abstract::FUNC as u64
    }
}

// Whether a type's kind is an abstract type or below it.
pub fn kind_below(rows: &[u16], shared: &[u16], codes: &[u16], x: u64, b: u64) -> bool
    ensures { result ≡ abstract_below (kind_of (view rows.now (both_codes shared.now codes.now) x).form) (abstract_at b) }
{
    let kind = kind_of(rows, shared, codes, x);
    type_abstract::abstract_below(kind, b)
}

// Whether an abstract type is the bottom of a type's hierarchy.
pub fn is_bottom(rows: &[u16], shared: &[u16], codes: &[u16], a: u64, y: u64) -> bool
    ensures { result ≡ same_abstract (abstract_at a) (bottom_of (view rows.now (both_codes shared.now codes.now) y).form) }
{
    let kind = kind_of(rows, shared, codes, y);
    let bottom = type_abstract::bottom_of(kind);
    a == bottom
}
