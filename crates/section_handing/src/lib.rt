// What the public calls on sections do once a table stands or is refused: clear it, say where the bytes of a type lie, hand
// them out. None of this knows how the table came to stand.
#![tactic(auto)]

ghost use Rattle.std.specs.Prelude.{◌≡◌, ◌-◌, min, take, drop};
ghost use Rattle.type_table.specs.View.{view, both_codes};
ghost use Rattle.section_handing.specs.Handing.{Cleared, asked_at, bytes_named};

use scope::{Asked, Place, refusals};

// Zero in every word that was lent.
pub fn clear(rows: &mut [u16], shared: &mut [u16], codes: &mut [u16])
    ensures { Cleared rows.old shared.old codes.old rows.new shared.new codes.new }
{
    lent_u16::wipe(rows);
    lent_u16::wipe(shared);
    lent_u16::wipe(codes);
}

// Where the bytes of a type lie that is one of so many in the table, the library's first; or 6, with the number as place.
pub fn place_of(
    rows: &[u16],
    shared: &[u16],
    codes: &[u16],
    number: u64,
    before: u64,
    count: u64,
) -> Asked
    ensures { result ≡ asked_at (view rows.now (both_codes shared.now codes.now)) number before count }
{
    if number < count {
        let from = type_table::from_of(rows, shared, codes, number);
        let to = type_table::to_of(rows, shared, codes, number);
        if number < before {
            return Asked::Library(from, to);
        }
        return Asked::Addon(from, to);
    }
    Asked::Refused(refusals::OUT_OF_REACH, Place::Plain(number))
}

fn least(a: u64, b: u64) -> u64
    ensures { result ≡ min a b }
{
    if a < b { a } else { b }
}

// The part of a slice between two places, as much of it as there is.
fn part(s: &[u8], from: u64, to: u64) -> &[u8]
    ensures { result.now ≡ take (to - from) (drop from s.now) }
{
    let end = least(to, s.len() as u64) as usize;
    let start = least(from, end as u64) as usize;
    &s[start..end]
}

// The bytes that an answer names, as a part of whichever section holds them; an empty part with every refusal.
pub fn bytes_of<'a>(library: &'a [u8], section: &'a [u8], asked: Asked) -> &'a [u8]
    ensures { result.now ≡ bytes_named library.now section.now asked }
{
    match asked {
        Asked::Refused(_, _) => part(section, 0, 0),
        Asked::Library(from, to) => part(library, from, to),
        Asked::Addon(from, to) => part(section, from, to),
    }
}
