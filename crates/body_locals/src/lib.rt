// Reading a body's locals into lent scratch: a word for each local, the code of its type, after those of the parameters.
#![tactic(auto)]

ghost use Rattle.std.specs.Prelude.{◌≡◌, replicate};
ghost use Rattle.type_table.proofs.Puts.{Puts};
ghost use Rattle.body_locals.specs.Entries.{Limits, Space, Lent, entry_at, entry_is, LocalsPut};

use scope::{Read, Refused, refusals, sizes};

// An entry of the list: how many locals, and the code of their type.
#[derive(Clone, Copy)]
pub struct Entry {
    pub count: u64,
    pub code: u64,
}

// One entry, after so many locals. 6 and then 4, both at its first byte.
#[tactic(auto, using(crate::proofs::OneEntry::entry_exits))]
fn entry_at(s: &[u8], at: usize, types: u64, before: u64) -> Read<Entry>
    requires { Limits types before }
    ensures { result ≡ entry_is (entry_at types before s.now at) }
{
    let (count, from) = number::u32_at(s, at)?;
    let (code, next) = type_read::val_at(s, from)?;
    if !type_reach::val_in_reach(code, types) {
        return Err(Refused {
            number: refusals::OUT_OF_REACH,
            at,
        });
    }
    if sizes::MOST_LOCALS < before + count {
        return Err(Refused {
            number: refusals::OVERSIZE,
            at,
        });
    }
    let entry = Entry { count, code };
    Ok((entry, next))
}

// The code, k times from a place on.
fn fill(work: &mut [u32], at: u64, k: u64, code: u64)
    requires { Space work.old at k code }
    ensures { Puts work.old work.new at (replicate k code) }
{
    for i in 0..k {
        lent_u32::put32(work, at + i, code);
    }
}

// n entries, after so many parameters: how many locals there are with the parameters. Local i has its word at `first` + i. The
// entries are counted down, as the definition does: how many are left is then all that the loop has to keep of them.
pub fn locals_at(
    s: &[u8],
    at: usize,
    n: u64,
    types: u64,
    work: &mut [u32],
    first: u64,
    before: u64,
) -> Read<u64>
    requires { Lent work.old types before first }
    ensures { LocalsPut types n before s.now at work.old work.new first result }
{
    let mut next = at;
    let mut count = before;
    for _ in (0..n).rev() {
        let (entry, following) = entry_at(s, next, types, count)?;
        fill(work, first + count, entry.count, entry.code);
        count += entry.count;
        next = following;
    }
    Ok((count, next))
}
