// The library first, then the add-on: each is read after what stands in the table, and its own types are judged with those before.
// Both times all types that stand in the table get their ranges: a type of the add-on may be below one of the library's.
#![tactic(auto)]

ghost use Rattle.std.specs.Prelude.{◌≡◌};
ghost use Rattle.scope.specs.Layout.{codes_size};
ghost use Rattle.scope.specs.Judging.{in_library, in_addon};
ghost use Rattle.type_table.specs.View.{both_codes};
ghost use Rattle.section_both.specs.Both.{AfterJudged, Ready, Opened, two_of, BothJudged};

use scope::{Place, Refused, Rejected};

// The library: its rows are the first, its codes lie in the shared buffer.
fn judge_library(
    library: &[u8],
    rows: &mut [u16],
    shared: &mut [u16],
    codes: &[u16],
) -> Result<u64, Rejected>
    requires { Ready rows.old shared.old codes.now }
    ensures { let both = both_codes shared.new codes.now in
        AfterJudged in_library library.now 0 codes_size rows.old rows.new shared.old shared.new both result }
{
    let read = section_reader::read_section(library, 0, type_table::SHARED, rows, shared);
    match read {
        Err(Refused { number, at: place }) => {
            Err(Rejected {
                number,
                place: Place::Library(place as u64),
            })
        }
        Ok(count) => section_decide::decide(rows, shared, codes, 0, count),
    }
}

// The add-on: its rows follow the library's, its codes lie in a buffer of their own. The library's types are not judged again.
fn judge_addon(
    section: &[u8],
    before: u64,
    rows: &mut [u16],
    shared: &[u16],
    codes: &mut [u16],
) -> Result<u64, Rejected>
    requires { Opened before rows.old shared.now codes.old }
    ensures { let both = both_codes shared.now codes.new in
        AfterJudged in_addon section.now before 0 rows.old rows.new codes.old codes.new both result }
{
    let read = section_reader::read_section(section, before, 0, rows, codes);
    match read {
        Err(Refused { number, at: place }) => Err(Rejected {
            number,
            place: Place::Addon(place as u64),
        }),
        Ok(count) => section_decide::decide(rows, shared, codes, before, count),
    }
}

fn with_before(before: u64, judged: Result<u64, Rejected>) -> Result<(u64, u64), Rejected>
    ensures { result ≡ two_of before judged }
{
    match judged {
        Err(e) => Err(e),
        Ok(count) => Ok((before, count)),
    }
}

// All the library's faults come before any of the add-on's. Of the lent memory the rows alone have to be zero before.
pub fn judge_both(
    library: &[u8],
    section: &[u8],
    rows: &mut [u16],
    shared: &mut [u16],
    codes: &mut [u16],
) -> Result<(u64, u64), Rejected>
    requires { Ready rows.old shared.old codes.old }
    ensures { BothJudged library.now section.now rows.old shared.old codes.old rows.new shared.new codes.new result }
{
    let first = judge_library(library, rows, shared, codes);
    match first {
        Err(e) => Err(e),
        Ok(before) => {
            let second = judge_addon(section, before, rows, shared, codes);
            with_before(before, second)
        }
    }
}
