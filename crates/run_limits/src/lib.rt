// What a run asks of its caller besides the state's memory: the one size of each buffer of the scratch, and a budget that is
// small enough.
#![tactic(auto)]

ghost use Rattle.std.specs.Prelude.{◌≡◌, ltb};
ghost use Rattle.scope.specs.Sizes.{most_budget};
ghost use Rattle.run_limits.specs.Limits.{scratch_lent};

use scope::sizes;

// Whether each buffer of the scratch has its one size.
pub fn scratch_enough(
    rows: &[u16],
    shared: &[u16],
    codes: &[u16],
    work: &[u32],
    ends: &[u16],
) -> bool
    ensures { result ≡ scratch_lent rows.now shared.now codes.now work.now ends.now }
{
    if !lent_limits::table_enough(rows, shared, codes) {
        return false;
    }
    if work.len() < sizes::WORK {
        return false;
    }
    sizes::ENDS <= ends.len()
}

// "a budget of at most 1,000,000"
pub fn over_budget(budget: u64) -> bool
    ensures { result ≡ ltb most_budget budget }
{
    sizes::MOST_BUDGET < budget
}
