// Reading a group into the lent table, of which it is lent only the rest: the rows from its first row on, and the codes from
// its first code on. `used` codes of the table are before that part.
#![tactic(auto)]

ghost use Rattle.scope.specs.Sections.{group_at};
ghost use Rattle.section_group.specs.Lent.{Lent, GroupPut, entries_at, several_at, alone_at};

use scope::{Read, Refused, refusals, sizes};

// How many definitions a group has, and how many codes of the table are used after it.
#[derive(Clone, Copy)]
pub struct Group {
    pub count: u64,
    pub used: u64,
}

// n definitions of a group that reaches so far and whose first type has the number `first`.
fn entries_at(
    s: &[u8],
    at: usize,
    n: u64,
    reach: u64,
    first: u64,
    rows: &mut [u16],
    codes: &mut [u16],
    used: u64,
) -> Read<Group>
    requires { Lent s.now rows.old codes.old at first used }
    ensures { GroupPut (entries_at reach first n) s.now at rows.old rows.new codes.old codes.new used result }
{
    let mut next = at;
    let mut filled: u64 = 0;
    for count in 0..n {
        if sizes::MOST_TYPES <= first + count {
            return Err(Refused {
                number: refusals::OVERSIZE,
                at: next,
            });
        }
        let row = sizes::ROW * count;
        let (more, after) = section_definition::definition_at(
            s, next, reach, rows, row, codes, used, filled,
        )?;
        next = after;
        filled = more;
    }
    let taken = used + filled;
    Ok((
        Group {
            count: n,
            used: taken,
        },
        next,
    ))
}

// 4E was read: a list of definitions.
fn several_at(
    s: &[u8],
    at: usize,
    first: u64,
    rows: &mut [u16],
    codes: &mut [u16],
    used: u64,
) -> Read<Group>
    requires { Lent s.now rows.old codes.old at first used }
    ensures { GroupPut (several_at first) s.now at rows.old rows.new codes.old codes.new used result }
{
    let (n, next) = number::u32_at(s, at)?;
    entries_at(s, next, n, first + n, first, rows, codes, used)
}

// One definition alone, where there is a row for it.
fn alone_at(
    s: &[u8],
    at: usize,
    first: u64,
    rows: &mut [u16],
    codes: &mut [u16],
    used: u64,
) -> Read<Group>
    requires { Lent s.now rows.old codes.old at first used }
    ensures { GroupPut (alone_at first) s.now at rows.old rows.new codes.old codes.new used result }
{
    if sizes::MOST_TYPES <= first {
        return Err(Refused {
            number: refusals::OVERSIZE,
            at,
        });
    }
    let reach = first + 1;
    let (filled, next) = section_definition::definition_at(s, at, reach, rows, 0, codes, used, 0)?;
    let taken = used + filled;
    Ok((
        Group {
            count: 1,
            used: taken,
        },
        next,
    ))
}

// A group: 4E and a list of definitions, or one definition alone.
#[tactic(auto, using(crate::proofs::Ways::way_exits), unfolding(scope::specs::Sections::group_at))]
pub fn group_at(
    s: &[u8],
    at: usize,
    first: u64,
    rows: &mut [u16],
    codes: &mut [u16],
    used: u64,
) -> Read<Group>
    requires { Lent s.now rows.old codes.old at first used }
    ensures { GroupPut (group_at first) s.now at rows.old rows.new codes.old codes.new used result }
{
    let Some(b) = number_bytes::byte_at(s, at) else {
        return Err(Refused {
            number: refusals::BYTES_END,
            at,
        });
    };
    if b == 0x4E {
        return several_at(s, at + 1, first, rows, codes, used);
    }
    alone_at(s, at, first, rows, codes, used)
}
