// The loader's public call on bodies. It trusts no caller to have looked first: any bytes and any buffers may be handed in.
// All lent memory is scratch, and zero afterwards whatever the answer.
#![tactic(auto)]

ghost use Rattle.scope.specs.Answers.{BodyJudged};
ghost use Rattle.body_call.specs.Calling.{Prepared, LentJudged, EnoughJudged};

use scope::{Place, Rejected, refusals, sizes};

// The sections first, with their own refusals.
fn judge_lent(
    library: &[u8],
    section: &[u8],
    s: &[u8],
    number: u64,
    rows: &mut [u16],
    shared: &mut [u16],
    codes: &mut [u16],
    work: &mut [u32],
) -> Result<u64, Rejected>
    requires { Prepared rows.old shared.old codes.old work.old }
    ensures { LentJudged library.now section.now s.now number result }
{
    let judged = section_both::judge_both(library, section, rows, shared, codes);
    match judged {
        Err(e) => Err(e),
        Ok((_, count)) => body_judge::judge_sized(
            rows,
            shared,
            codes,
            work,
            s,
            count as u16,
            number,
        ),
    }
}

// 14 first. Of the memory only the rows and the scratch have to be zero: what the codes' buffers hold beyond the codes is not
// looked at.
fn judge_enough(
    library: &[u8],
    section: &[u8],
    s: &[u8],
    number: u64,
    rows: &mut [u16],
    shared: &mut [u16],
    codes: &mut [u16],
    work: &mut [u32],
) -> Result<u64, Rejected>
    ensures { EnoughJudged library.now section.now s.now number rows.old shared.old codes.old work.old result }
{
    if !lent_limits::table_enough(rows, shared, codes) {
        return Err(Rejected {
            number: refusals::BUFFER_TOO_SMALL,
            place: Place::Plain(0),
        });
    }
    if work.len() < sizes::WORK {
        return Err(Rejected {
            number: refusals::BUFFER_TOO_SMALL,
            place: Place::Plain(0),
        });
    }
    lent_u16::wipe(rows);
    lent_u32::wipe32(work);
    judge_lent(library, section, s, number, rows, shared, codes, work)
}

// Judges a body against a function type's number: its count of instructions; or the refusal's number and place.
pub fn judge_body(
    library: &[u8],
    section: &[u8],
    body: &[u8],
    number: u64,
    rows: &mut [u16],
    shared: &mut [u16],
    codes: &mut [u16],
    work: &mut [u32],
) -> Result<u64, Rejected>
    ensures { BodyJudged library.now section.now body.now number
        rows.old shared.old codes.old work.old
        rows.new shared.new codes.new work.new result }
{
    let verdict = judge_enough(library, section, body, number, rows, shared, codes, work);
    body_clear::clear(rows, shared, codes, work);
    verdict
}
