// One line for each case: its name; `yes` with the count of types, or `no` with the refusal's number and place; and `zero`
// or `rubbish`, for what the words outside the table hold afterwards. Or the table itself: its words that are not zero.
use crate::telling::{tell_memory, tell_no, tell_table};
use cases_text::tell_number;
use scope::Rejected;
use scope::sizes::{MOST_TYPES, ROW};
use std::io;

// from this first code on a type's codes lie in `shared`, at so much less
const SHARED: u64 = 32768;

// Where the codes of one section end after one more row, which may be of the other section: its codes begin at its word 10,
// and its words 1 and 2 count them.
fn end_after(end: u64, rows: &[u16], number: u16, in_shared: bool) -> u64 {
    let row = ROW * number as u64;
    let first = lent_u16::word(rows, row + 10);
    let taken = lent_u16::word(rows, row + 1);
    let given = lent_u16::word(rows, row + 2);
    if (SHARED <= first) == in_shared {
        return first % SHARED + taken + given;
    }
    end
}

// Where the codes of one section end.
fn codes_end(rows: &[u16], count: u16, in_shared: bool) -> u64 {
    let mut end: u64 = 0;
    let mut number: u16 = 0;
    while number < count {
        end = end_after(end, rows, number, in_shared);
        number += 1;
    }
    end
}

// A yes: the words beyond the table are zero.
fn tell_yes(
    rt: &impl Print,
    count: u64,
    rows: &[u16],
    shared: &[u16],
    codes: &[u16],
) -> io::Result<()> {
    rt.write_all(b" yes")?;
    tell_number(rt, count)?;
    match count {
        1..=MOST_TYPES => {
            let first = codes_end(rows, count as u16, true);
            let code = codes_end(rows, count as u16, false);
            tell_memory(rt, rows, shared, codes, ROW * count, first, code)
        }
        _ => tell_memory(rt, rows, shared, codes, 0, 0, 0),
    }
}

// The table's words, or the verdict.
fn tell_judged(
    rt: &impl Print,
    verdict: Result<u64, Rejected>,
    told: bool,
    words: bool,
    rows: &[u16],
    shared: &[u16],
    codes: &[u16],
) -> io::Result<()> {
    if words {
        return tell_table(rt, rows, shared, codes);
    }
    match verdict {
        Ok(count) => tell_yes(rt, count, rows, shared, codes),
        Err(Rejected { number, place }) => tell_no(rt, number, place, told, rows, shared, codes),
    }
}

pub fn judged(
    rt: &impl Print,
    name: &[u8],
    library: &[u8],
    section: &[u8],
    told: bool,
    words: bool,
    rows: &mut [u16],
    shared: &mut [u16],
    codes: &mut [u16],
) -> io::Result<()> {
    let verdict = section_call::judge_section(library, section, rows, shared, codes);
    rt.write_all(name)?;
    tell_judged(rt, verdict, told, words, rows, shared, codes)
}
