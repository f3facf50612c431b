// All that comes before a run, in document 01's order: 14, the body with its own refusals, the budget, the parameters. What the
// run needs of the section and the body is read once more into scratch that the verdict left zero, and answered by value; the
// state's memory is not lent here.
#![tactic(auto)]

ghost use Rattle.run_limits.specs.Limits.{scratch_lent};
ghost use Rattle.run_prepare.specs.Preparing.{Shaped, BodyRead, Typed, TypeRead, Allowed, SectionRead, ScratchRoom, RunJudged, PreparedFor};
ghost use Rattle.type_table.specs.View.{both_codes};

use scope::{Place, Refused, Rejected, refusals};
use type_table::Shape;

// The locals and the matching ends, which an accepted body has; between them 29, where a parameter has no default.
fn read_body(
    s: &[u8],
    shared: &[u16],
    codes: &[u16],
    work: &mut [u32],
    ends: &mut [u16],
    types: u16,
    first: u32,
    params: u32,
    results: u32,
) -> Result<(u16, u32, usize), Rejected>
    requires { Shaped s.now (both_codes shared.now codes.now) work.old ends.old types first params results }
    ensures { let work' = work.new in let ends' = ends.new in
        BodyRead s.now (both_codes shared.now codes.now) work' ends' types first params results result }
{
    let started = body_start::start(s, shared, codes, work, types, first, params);
    match started {
        Err(Refused { number, at: place }) => Err(Rejected {
            number,
            place: Place::Plain(place as u64),
        }),
        Ok((count, next)) => {
            if !body_plan_defaults::all_default(shared, codes, first, params, false) {
                return Err(Rejected {
                    number: refusals::NO_DEFAULT,
                    place: Place::Plain(0),
                });
            }
            if !run_ends::fill_ends(s, next, ends) {
                return Err(Rejected {
                    number: refusals::BYTES_END,
                    place: Place::Plain(s.len() as u64),
                });
            }
            Ok((count, results, next))
        }
    }
}

// The function's type, which an accepted body has.
fn read_type(
    s: &[u8],
    number: u64,
    rows: &[u16],
    shared: &[u16],
    codes: &[u16],
    work: &mut [u32],
    ends: &mut [u16],
    types: u16,
) -> Result<(u16, u32, usize), Rejected>
    requires { Typed s.now number rows.now (both_codes shared.now codes.now) work.old ends.old types }
    ensures { let work' = work.new in let ends' = ends.new in
        TypeRead s.now number rows.now (both_codes shared.now codes.now) work' ends' types result }
{
    let shape = type_table::shape_of(rows, shared, codes, number);
    match shape {
        Shape::Struct(_, _) => Err(Rejected {
            number: refusals::NOT_A_FUNCTION,
            place: Place::Plain(0),
        }),
        Shape::Func(first, n, second, m) => read_body(
            s, shared, codes, work, ends, types, first, n, m,
        ),
    }
}

// The sections' table, once more.
fn read_section(
    library: &[u8],
    section: &[u8],
    s: &[u8],
    number: u64,
    rows: &mut [u16],
    shared: &mut [u16],
    codes: &mut [u16],
    work: &mut [u32],
    ends: &mut [u16],
) -> Result<(u16, u32, usize), Rejected>
    requires { Allowed library.now section.now s.now number rows.old shared.old codes.old work.old ends.old }
    ensures { let rows' = rows.new in let codes' = both_codes shared.new codes.new in
        let work' = work.new in let ends' = ends.new in
        SectionRead library.now section.now s.now number rows' codes' work' ends' result }
{
    let judged = section_both::judge_both(library, section, rows, shared, codes);
    match judged {
        Err(e) => Err(e),
        Ok((_, count)) => read_type(s, number, rows, shared, codes, work, ends, count as u16),
    }
}

// The body first, with its own refusals; then the budget.
fn judge(
    library: &[u8],
    section: &[u8],
    s: &[u8],
    number: u64,
    budget: u64,
    rows: &mut [u16],
    shared: &mut [u16],
    codes: &mut [u16],
    work: &mut [u32],
    ends: &mut [u16],
) -> Result<(u16, u32, usize), Rejected>
    requires { ScratchRoom rows.old shared.old codes.old work.old ends.old }
    ensures { let rows' = rows.new in let codes' = both_codes shared.new codes.new in
        let work' = work.new in let ends' = ends.new in
        RunJudged library.now section.now s.now number budget rows' codes' work' ends' result }
{
    let judged = body_call::judge_body(library, section, s, number, rows, shared, codes, work);
    match judged {
        Err(e) => Err(e),
        Ok(_) => {
            if run_limits::over_budget(budget) {
                return Err(Rejected {
                    number: refusals::OVERSIZE,
                    place: Place::Plain(0),
                });
            }
            read_section(library, section, s, number, rows, shared, codes, work, ends)
        }
    }
}

// 14 first, of the scratch here and of the state by whoever has it.
pub fn prepare(
    library: &[u8],
    section: &[u8],
    s: &[u8],
    number: u64,
    budget: u64,
    rows: &mut [u16],
    shared: &mut [u16],
    codes: &mut [u16],
    work: &mut [u32],
    ends: &mut [u16],
    enough: bool,
) -> Result<(u16, u32, usize), Rejected>
    ensures { let before = scratch_lent rows.old shared.old codes.old work.old ends.old in
        let rows' = rows.new in let codes' = both_codes shared.new codes.new in
        let work' = work.new in let ends' = ends.new in
        PreparedFor library.now section.now s.now number budget before enough rows' codes' work' ends' result }
{
    if !run_limits::scratch_enough(rows, shared, codes, work, ends) {
        return Err(Rejected {
            number: refusals::BUFFER_TOO_SMALL,
            place: Place::Plain(0),
        });
    }
    if !enough {
        return Err(Rejected {
            number: refusals::BUFFER_TOO_SMALL,
            place: Place::Plain(0),
        });
    }
    judge(
        library, section, s, number, budget, rows, shared, codes, work, ends,
    )
}
