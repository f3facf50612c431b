// Reading a whole section into the lent table: its groups one after the other, each lent the rest of the table from its
// first row and its first code on; then nothing is left over. `before` types stand before the section's own, and the first of
// its codes has the place `base`: no types and the library's first place for the library, its count and 0 for the add-on.
#![tactic(auto)]

ghost use Rattle.scope.specs.Sections.{read_after};
ghost use Rattle.section_reader.specs.Whole.{Begun, GroupsPut, ended_at, counted_at, Enough, SectionPut};

use scope::{Read, Refused, refusals, sizes};
use section_group::Group;

// n groups, from the row `before` and the lent codes' first on. The answer counts the types before as well.
#[tactic(auto, using(crate::proofs::Walking::walk_exits))]
fn groups_at(
    s: &[u8],
    at: usize,
    n: u64,
    before: u64,
    base: u64,
    rows: &mut [u16],
    codes: &mut [u16],
) -> Read<Group>
    requires { Begun s.now rows.old codes.old at before base }
    ensures { GroupsPut n before base s.now at rows.old rows.new codes.old codes.new result }
{
    let mut next = at;
    let mut first = before;
    let mut used = base;
    for _ in 0..n {
        let start = (sizes::ROW * first) as usize;
        let from = (used - base) as usize;
        let (group, after) = section_group::group_at(
            s,
            next,
            first,
            &mut rows[start..],
            &mut codes[from..],
            used,
        )?;
        next = after;
        first = first + group.count;
        used = group.used;
    }
    Ok((Group { count: first, used }, next))
}

// n groups, and then nothing is left over.
fn ended_at(
    s: &[u8],
    at: usize,
    n: u64,
    before: u64,
    base: u64,
    rows: &mut [u16],
    codes: &mut [u16],
) -> Result<u64, Refused>
    requires { Begun s.now rows.old codes.old at before base }
    ensures { SectionPut (ended_at n before s.now at) before base rows.old rows.new codes.old codes.new result }
{
    let (all, next) = groups_at(s, at, n, before, base, rows, codes)?;
    if next == s.len() {
        return Ok(all.count);
    }
    Err(Refused {
        number: refusals::LEFT_OVER,
        at: next,
    })
}

// The count of groups, then the groups.
fn counted_at(
    s: &[u8],
    before: u64,
    base: u64,
    rows: &mut [u16],
    codes: &mut [u16],
) -> Result<u64, Refused>
    requires { Begun s.now rows.old codes.old 0 before base }
    ensures { SectionPut (counted_at before s.now) before base rows.old rows.new codes.old codes.new result }
{
    let (n, next) = number::u32_at(s, 0)?;
    ended_at(s, next, n, before, base, rows, codes)
}

// The whole size comes before the bytes.
pub fn read_section(
    s: &[u8],
    before: u64,
    base: u64,
    rows: &mut [u16],
    codes: &mut [u16],
) -> Result<u64, Refused>
    requires { Enough rows.old codes.old before base }
    ensures { SectionPut (read_after before s.now) before base rows.old rows.new codes.old codes.new result }
{
    if sizes::MOST_BYTES < s.len() {
        return Err(Refused {
            number: refusals::OVERSIZE,
            at: 0,
        });
    }
    counted_at(s, before, base, rows, codes)
}
