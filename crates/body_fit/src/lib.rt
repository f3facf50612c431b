// Whether an operand fits what is wanted, both given by their words. The answer is that of document 01's rules (scope's
// Bodies.antt) over what the words say.
#![tactic(auto)]

ghost use Rattle.std.specs.Prelude.{◌≡◌, cond};
ghost use Rattle.scope.specs.Order.{it_fits, unfit};
ghost use Rattle.scope.specs.Bodies.{fit};
ghost use Rattle.type_table.specs.View.{view, both_codes};
ghost use Rattle.type_fit.specs.Outcomes.{fit_is};
ghost use Rattle.type_hierarchy.specs.Ranged.{Ranged};
ghost use Rattle.body_state.specs.State.{operand_at_code, wanted_at_code};

use body_words::{ANY_REFERENCE, ANY_VALUE, KNOWN, REFERENCES, UNKNOWN, UNKNOWN_REFERENCE};
use type_fit::Fit;

// A reference where one is wanted: it fits, and a number does not.
fn as_reference(reference: bool) -> Fit
    ensures { result ≡ fit_is (cond reference it_fits unfit) }
{
    if reference { Fit::Fits } else { Fit::Unfit }
}

// "An unknown is below every type": a non-null reference of unknown heap, below every reference type. Most operands are of the
// very type that is wanted, so that is asked first.
pub fn fit_word(rows: &[u16], shared: &[u16], codes: &[u16], o: u64, w: u64) -> Fit
    requires { Ranged rows.now (both_codes shared.now codes.now) }
    ensures { result ≡ fit_is (fit (view rows.now (both_codes shared.now codes.now)) (operand_at_code o) (wanted_at_code w)) }
{
    if o == w {
        return Fit::Fits;
    }
    if o == UNKNOWN {
        return Fit::Fits;
    }
    if w == ANY_VALUE {
        return Fit::Fits;
    }
    if o == UNKNOWN_REFERENCE {
        if w == ANY_REFERENCE {
            return Fit::Fits;
        }
        return as_reference(REFERENCES <= w);
    }
    if w == ANY_REFERENCE {
        return as_reference(REFERENCES <= o);
    }
    type_fit::val_fit(rows, shared, codes, o - KNOWN, w - KNOWN)
}
