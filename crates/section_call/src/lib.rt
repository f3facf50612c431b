// The loader's public calls on sections: judge a library and an add-on, ask them for a type, hand back its very bytes. No call
// trusts its caller to have looked first: any bytes and any buffers may be handed in, and lent memory is all zero after every
// refusal.
#![tactic(auto)]

ghost use Rattle.scope.specs.Answers.{SectionJudged, TypeAsked, TypeHanded};
ghost use Rattle.section_call.specs.Calls.{Blank, LentJudged, TableJudged};

use scope::{Asked, Place, Rejected, refusals};

// Both sections, and zero after a refusal.
fn judge_lent(
    library: &[u8],
    section: &[u8],
    rows: &mut [u16],
    shared: &mut [u16],
    codes: &mut [u16],
) -> Result<(u64, u64), Rejected>
    requires { Blank rows.old shared.old codes.old }
    ensures { LentJudged library.now section.now rows.old shared.old codes.old rows.new shared.new codes.new result }
{
    let judged = section_both::judge_both(library, section, rows, shared, codes);
    match judged {
        Ok((before, count)) => Ok((before, count)),
        Err(Rejected { number, place }) => {
            section_handing::clear(rows, shared, codes);
            Err(Rejected { number, place })
        }
    }
}

// 14, then both sections: how many types are the library's, how many there are, and their table; or the refusal.
fn judge_table(
    library: &[u8],
    section: &[u8],
    rows: &mut [u16],
    shared: &mut [u16],
    codes: &mut [u16],
) -> Result<(u64, u64), Rejected>
    ensures { TableJudged library.now section.now rows.old shared.old codes.old rows.new shared.new codes.new result }
{
    section_handing::clear(rows, shared, codes);
    if !lent_limits::table_enough(rows, shared, codes) {
        return Err(Rejected {
            number: refusals::BUFFER_TOO_SMALL,
            place: Place::Plain(0),
        });
    }
    judge_lent(library, section, rows, shared, codes)
}

// Judges a library and an add-on: their type count and their table; or the refusal's number and place, and the table all zero.
pub fn judge_section(
    library: &[u8],
    section: &[u8],
    rows: &mut [u16],
    shared: &mut [u16],
    codes: &mut [u16],
) -> Result<u64, Rejected>
    ensures { SectionJudged library.now section.now rows.old shared.old codes.old rows.new shared.new codes.new result }
{
    let judged = judge_table(library, section, rows, shared, codes);
    match judged {
        Ok((_, count)) => Ok(count),
        Err(e) => Err(e),
    }
}

// Asks for a type by number: where the bytes of its definition lie, and in which section; or the refusal's number and place.
pub fn ask_type(
    library: &[u8],
    section: &[u8],
    number: u64,
    rows: &mut [u16],
    shared: &mut [u16],
    codes: &mut [u16],
) -> Asked
    ensures { TypeAsked library.now section.now number rows.old shared.old codes.old rows.new shared.new codes.new result }
{
    let judged = judge_table(library, section, rows, shared, codes);
    match judged {
        Err(
            Rejected {
                number: refusal,
                place,
            },
        ) => Asked::Refused(refusal, place),
        Ok((before, count)) => {
            let asked = section_handing::place_of(rows, shared, codes, number, before, count);
            match asked {
                Asked::Library(from, to) => Asked::Library(from, to),
                Asked::Addon(from, to) => Asked::Addon(from, to),
                Asked::Refused(refusal, place) => {
                    section_handing::clear(rows, shared, codes);
                    Asked::Refused(refusal, place)
                }
            }
        }
    }
}

// Hands back the very bytes of a type's definition, as a part of whichever section holds it; an empty part with every refusal.
pub fn type_bytes<'a>(
    library: &'a [u8],
    section: &'a [u8],
    number: u64,
    rows: &mut [u16],
    shared: &mut [u16],
    codes: &mut [u16],
) -> &'a [u8]
    ensures { TypeHanded library.now section.now number rows.old shared.old codes.old rows.new shared.new codes.new result.now }
{
    let asked = ask_type(library, section, number, rows, shared, codes);
    section_handing::bytes_of(library, section, asked)
}
