// What a label takes of a branching cast: the last of its types is split off, and what is carried has to be below it (25).
#![tactic(auto)]

ghost use Rattle.type_table.specs.View.{view, both_codes};
ghost use Rattle.type_hierarchy.specs.Ranged.{Ranged};
ghost use Rattle.body_plan_carried.specs.Carried.{SplitOf, Small, Carries};

use body_plan_parts::{GIVEN, WANTED};
use body_state::{CODE_BOUND, Plain, Planned, Values};
use scope::refusals;
use type_fit::Fit;

// The types before a list's last, and the last by its code; None where the list is empty.
#[tactic(auto, using(crate::proofs::Lasts::last_exits))]
fn split_last(shared: &[u16], codes: &[u16], values: Values) -> Option<(Values, u64)>
    ensures { SplitOf (both_codes shared.now codes.now) values result }
{
    match values {
        Values::Types(first, n) => {
            if n == 0 {
                return None;
            }
            let before = n - 1;
            let code = type_table::code_word(shared, codes, first as u64 + before as u64);
            Some((Values::Types(first, before), code))
        }
        Values::Fields(first, n) => {
            if n == 0 {
                return None;
            }
            let before = n - 1;
            let field = type_table::code_word(shared, codes, first as u64 + before as u64);
            Some((Values::Fields(first, before), field / 2))
        }
        Values::One(c) => {
            let code = c as u64 % CODE_BOUND;
            Some((Values::Types(0, 0), code))
        }
    }
}

// A branching cast's label, by codes: what is carried is below its last type. `first` is taken before the object.
#[tactic(auto, using(crate::proofs::Carrying::carry_exits))]
pub fn carries(
    rows: &[u16],
    shared: &[u16],
    codes: &[u16],
    first: u64,
    source: u64,
    carried: u64,
    falls: u64,
    label: Values,
) -> Planned
    requires small { Small source falls }
    requires ranged { Ranged rows.now (both_codes shared.now codes.now) }
    ensures { Carries (both_codes shared.now codes.now) (view rows.now (both_codes shared.now codes.now)) first source carried falls label result }
{
    let split = split_last(shared, codes, label);
    match split {
        None => Planned::Fault(refusals::BAD_BRANCH),
        Some((before, last)) => {
            // the label's rule relies on the first outcome alone, and makes 25 of the other two
            let fit = type_fit::val_fit(rows, shared, codes, carried, last);
            match fit {
                Fit::ButForNull => Planned::Fault(refusals::BAD_BRANCH),
                Fit::Unfit => Planned::Fault(refusals::BAD_BRANCH),
                Fit::Fits => {
                    let second = source + WANTED;
                    let gives = falls + GIVEN;
                    Planned::Plain(Plain {
                        top: first,
                        second: second,
                        rest: before,
                        back: true,
                        gives: gives,
                        marks: 0,
                        stops: false,
                    })
                }
            }
        }
    }
}
