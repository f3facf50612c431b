// The verdict on the types that stand in the table from `first` on, and the ranges of all of them: depths, the first pass, ranges, the
// second pass. The types before have passed the first pass.
#![tactic(auto)]

ghost use Rattle.type_table.specs.View.{both_codes};
ghost use Rattle.section_decide.specs.Deciding.{Decidable, Deep, Decided};

use scope::Rejected;

// The two passes, with the ranges between them, once the end words are depths.
fn decide_deep(
    rows: &mut [u16],
    shared: &[u16],
    codes: &[u16],
    first: u64,
    n: u64,
) -> Result<u64, Rejected>
    requires { Deep first n (both_codes shared.now codes.now) rows.old }
    ensures { Decided first n (both_codes shared.now codes.now) rows.old rows.new result }
{
    let links = section_judge::judge_links(rows, shared, codes, first, n);
    match links {
        Err(e) => Err(e),
        Ok(_) => {
            type_numbering::number(rows, shared, codes, n);
            section_judge::judge_rules(rows, shared, codes, first, n)
        }
    }
}

pub fn decide(
    rows: &mut [u16],
    shared: &[u16],
    codes: &[u16],
    first: u64,
    n: u64,
) -> Result<u64, Rejected>
    requires { Decidable first n (both_codes shared.now codes.now) rows.old }
    ensures { Decided first n (both_codes shared.now codes.now) rows.old rows.new result }
{
    type_chain::put_depths(rows, shared, codes, n);
    decide_deep(rows, shared, codes, first, n)
}
