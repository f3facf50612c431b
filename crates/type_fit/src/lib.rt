// Whether one value type fits another, with three outcomes: it does, it would if it could not be null, it does not. Types are
// given by their codes, and the table is read as it stands, for any words: each answer is that of scope's Order.antt over what
// the table says.
#![tactic(auto)]

ghost use Rattle.std.specs.Prelude.{◌≡◌};
ghost use Rattle.scope.specs.Syntax.{ref};
ghost use Rattle.scope.specs.Order.{val_fit, same_val};
ghost use Rattle.type_table.specs.View.{heap_at_code, val_at_code, view, both_codes};
ghost use Rattle.type_fit.specs.Outcomes.{fit_is};
ghost use Rattle.type_hierarchy.specs.Ranged.{Ranged};

use type_table::ValKind;

// What the test of one type against another comes to: it fits, it would fit if it could not be null, or it does not fit.
#[derive(Clone, Copy)]
pub enum Fit {
    Fits,
    ButForNull,
    Unfit,
}

// A reference against the value type with the code b: the heaps decide, and then null. A non-null reference is below the
// nullable one.
fn ref_fit(rows: &[u16], shared: &[u16], codes: &[u16], nullable: bool, h: u64, b: u64) -> Fit
    requires { Ranged rows.now (both_codes shared.now codes.now) }
    ensures { result ≡ fit_is (val_fit (view rows.now (both_codes shared.now codes.now)) (ref nullable (heap_at_code h)) (val_at_code b)) }
{
    let upper = type_table::val_of(b);
    match upper {
        ValKind::Number(_) => Fit::Unfit,
        ValKind::Ref(m, k) => {
            if !type_order::heap_below(rows, shared, codes, h, k) {
                return Fit::Unfit;
            }
            if m {
                return Fit::Fits;
            }
            if nullable {
                return Fit::ButForNull;
            }
            Fit::Fits
        }
    }
}

// Most comparisons are of a type with itself, which fits.
pub fn val_fit(rows: &[u16], shared: &[u16], codes: &[u16], a: u64, b: u64) -> Fit
    requires { Ranged rows.now (both_codes shared.now codes.now) }
    ensures { result ≡ fit_is (val_fit (view rows.now (both_codes shared.now codes.now)) (val_at_code a) (val_at_code b)) }
{
    if a == b {
        return Fit::Fits;
    }
    let lower = type_table::val_of(a);
    match lower {
        ValKind::Number(_) => Fit::Unfit,
        ValKind::Ref(n, h) => ref_fit(rows, shared, codes, n, h, b),
    }
}

// Each type has one code.
pub fn same_val(a: u64, b: u64) -> bool
    ensures { result ≡ same_val (val_at_code a) (val_at_code b) }
{
    a == b
}
