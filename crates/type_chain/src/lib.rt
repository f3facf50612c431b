// Type rule 1, that a type has at most one supertype, which is earlier and open, asked of the lent table as it stands; and the chain,
// that its length is within the sizes, asked of a depth that is counted once for each type. Rule 1's reach is the crate `type_reach`.
#![tactic(auto)]

ghost use Rattle.std.specs.Prelude.{◌≡◌};
ghost use Rattle.scope.specs.Sizes.{most_steps};
ghost use Rattle.scope.specs.TypeRules.{super_earlier_and_open};
ghost use Rattle.type_table.specs.View.{view, both_codes};
ghost use Rattle.type_chain.specs.Depths.{shallow, DepthAt, Measurable, Measured};

use scope::sizes;
use type_table::Supers;

// Rule 1: at most one supertype; it is earlier and open.
pub fn super_earlier_and_open(rows: &[u16], shared: &[u16], codes: &[u16], x: u64) -> bool
    ensures { result ≡ super_earlier_and_open (view rows.now (both_codes shared.now codes.now)) x }
{
    let supers = type_table::supers_of(rows, shared, codes, x);
    match supers {
        Supers::Nothing => true,
        Supers::One(p) => {
            if p < x {
                type_table::is_open(rows, shared, codes, p)
            } else {
                false
            }
        }
        Supers::Two(_, _) => false,
    }
}

// How many types are above one, where each supertype is earlier: one more than above its own, whose end word says how many that is.
#[tactic(auto, using(crate::proofs::Depths::depth_exits))]
fn depth_of(rows: &[u16], shared: &[u16], codes: &[u16], x: u64) -> u64
    ensures { DepthAt (view rows.now (both_codes shared.now codes.now)) rows.now x result }
{
    let above = type_table::super_of(rows, shared, codes, x);
    let Some(p) = above else {
        return 0;
    };
    if p < x {
        return type_span::end_of(rows, p) + 1;
    }
    0
}

// The end words of n types become their depths, until the ranges are put.
#[tactic(auto, using(crate::proofs::Depths::depths_exits))]
pub fn put_depths(rows: &mut [u16], shared: &[u16], codes: &[u16], n: u64)
    requires { Measurable n rows.old }
    ensures { Measured n (both_codes shared.now codes.now) rows.old rows.new }
{
    for x in 0..n {
        let depth = depth_of(rows, shared, codes, x);
        type_span::put_word(rows, x, type_span::END, depth);
    }
}

// Sizes: 63 steps up a supertype chain, of a type whose end word is its depth.
#[tactic(auto, using(crate::proofs::Depths::shallow_exits))]
pub fn short_chain(rows: &[u16], x: u64) -> bool
    ensures { result ≡ shallow most_steps rows.now x }
{
    let depth = type_span::end_of(rows, x);
    if sizes::MOST_STEPS < depth {
        return false;
    }
    true
}
