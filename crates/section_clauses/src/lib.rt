// Reading what stands before a definition's form: 50 or 4F with supertypes, and the two clauses. A type number is
// answered as the table holds it: 0 for none, else one more than the number as it is kept.
#![tactic(auto)]

ghost use Rattle.std.specs.Prelude.{◌≡◌};
ghost use Rattle.scope.specs.Reading.{entries};
ghost use Rattle.scope.specs.Numbers.{u32};
ghost use Rattle.scope.specs.Sections.{supers_at, head_at, clause_at};
ghost use Rattle.scope.specs.Told.{told};
ghost use Rattle.section_clauses.specs.Links.{first_link, further_link, links_of, opened_of, head_of, named_at, clause_of, clauses_at, clauses_of, front_at, front_of};

use scope::{Read, Refused, refusals};

// The links of a list of supertypes: its first, and the greatest of the others.
#[derive(Clone, Copy)]
pub struct Links {
    pub first: u64,
    pub further: u64,
}

// 1 where others may extend the type, and its supertypes.
#[derive(Clone, Copy)]
pub struct Head {
    pub opens: u64,
    pub supers: Links,
}

// What the type describes, and what describes it.
#[derive(Clone, Copy)]
pub struct Clauses {
    pub described: u64,
    pub describing: u64,
}

// All that stands before a form.
#[derive(Clone, Copy)]
pub struct Front {
    pub head: Head,
    pub clauses: Clauses,
}

// The first link of a list is that of its first entry.
#[tactic(auto, using(crate::proofs::Listing::link_exits))]
fn first_link(count: u64, first: u64, link: u64) -> u64
    ensures { result ≡ first_link count first link }
{
    if count == 0 {
        return link;
    }
    first
}

// The further link of a list is the greatest but the first entry's.
#[tactic(auto, using(crate::proofs::Listing::link_exits))]
fn further_link(count: u64, further: u64, link: u64) -> u64
    ensures { result ≡ further_link count further link }
{
    if count == 0 {
        return further;
    }
    if further < link {
        return link;
    }
    further
}

// n supertypes. Several are no byte fault, so each of them is read.
#[tactic(auto, using(crate::proofs::Listing::super_exits))]
fn super_entries(s: &[u8], at: usize, n: u64) -> Read<Links>
    ensures { result ≡ told links_of (entries u32 n n s.now at) }
{
    let mut next = at;
    let mut first: u64 = 0;
    let mut further: u64 = 0;
    for count in 0..n {
        let (x, after) = number::u32_at(s, next)?;
        let link = type_read::kept_number(x) + 1;
        first = first_link(count, first, link);
        further = further_link(count, further, link);
        next = after;
    }
    Ok((Links { first, further }, next))
}

#[tactic(auto, using(crate::proofs::Listing::supers_exits))]
fn supers_at(s: &[u8], at: usize) -> Read<Links>
    ensures { result ≡ told links_of (supers_at s.now at) }
{
    let (n, next) = number::u32_at(s, at)?;
    super_entries(s, next, n)
}

// 50 or 4F was read: a list of supertypes.
#[tactic(auto, using(crate::proofs::Heading::sub_exits))]
fn sub_at(s: &[u8], at: usize, opens: u64) -> Read<Head>
    ensures { result ≡ told (opened_of opens) (supers_at s.now at) }
{
    let (supers, next) = supers_at(s, at)?;
    Ok((Head { opens, supers }, next))
}

#[tactic(auto, using(crate::proofs::Heading::head_exits))]
fn head_at(s: &[u8], at: usize) -> Read<Head>
    ensures { result ≡ told head_of (head_at s.now at) }
{
    let Some(b) = number_bytes::byte_at(s, at) else {
        return Err(Refused {
            number: refusals::BYTES_END,
            at,
        });
    };
    if b == 0x50 {
        return sub_at(s, at + 1, 1);
    }
    if b == 0x4F {
        return sub_at(s, at + 1, 0);
    }
    let supers = Links {
        first: 0,
        further: 0,
    };
    Ok((Head { opens: 0, supers }, at))
}

// The number of a clause whose code was read.
#[tactic(auto, using(crate::proofs::Heading::named_exits))]
fn named_at(s: &[u8], at: usize) -> Read<u64>
    ensures { result ≡ told clause_of (named_at s.now at) }
{
    let (x, next) = number::u32_at(s, at)?;
    Ok((type_read::kept_number(x) + 1, next))
}

#[tactic(auto, using(crate::proofs::Heading::clause_exits))]
fn clause_at(s: &[u8], at: usize, code: u64) -> Read<u64>
    ensures { result ≡ told clause_of (clause_at code s.now at) }
{
    let Some(b) = number_bytes::byte_at(s, at) else {
        return Err(Refused {
            number: refusals::BYTES_END,
            at,
        });
    };
    if b == code {
        return named_at(s, at + 1);
    }
    Ok((0, at))
}

#[tactic(auto, using(crate::proofs::Heading::clauses_exits))]
fn clauses_at(s: &[u8], at: usize) -> Read<Clauses>
    ensures { result ≡ told clauses_of (clauses_at s.now at) }
{
    let (described, next) = clause_at(s, at, 0x4C)?;
    let (describing, form) = clause_at(s, next, 0x4D)?;
    Ok((
        Clauses {
            described,
            describing,
        },
        form,
    ))
}

#[tactic(auto, using(crate::proofs::Heading::front_exits))]
pub fn front_at(s: &[u8], at: usize) -> Read<Front>
    ensures { result ≡ told front_of (front_at s.now at) }
{
    let (head, next) = head_at(s, at)?;
    let (clauses, form) = clauses_at(s, next)?;
    Ok((Front { head, clauses }, form))
}
