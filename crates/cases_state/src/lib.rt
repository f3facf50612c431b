// One line for each case: its name; how it ended, in the order of values that docs/LAYOUT.md has for the answer; `@` and the
// place; the entries of each buffer that has any, an entry's words with `:` between them, and `1024*` before an entry that
// stands so often in a row; and `zero` or `not zero`, for the scratch and for what lies beyond the state. A refusal has no
// place and no entries.
#![tactic(auto)]

use cases_text::{tell_number, tell_refusal};
use scope::{Ran, sizes};
use std::io;

// as many as can be lent
const MORE_OBJECTS: usize = sizes::OBJECTS + 1;

const MORE_BLOCKS: usize = sizes::BLOCKS + 1;

pub fn tell_name(rt: &impl Print, name: &[u8]) -> io::Result<()> {
    rt.write_all(name)
}

// Whether every word from a place on is zero.
fn zero_from(m: &[u64], from: usize) -> bool {
    let mut i = from;
    while i < m.len() {
        if m[i] != 0 {
            return false;
        }
        i += 1;
    }
    true
}

// The first so many words of a buffer, which were lent; none where it has fewer.
pub fn lent16(m: &[u16], n: usize) -> &[u16] {
    if n <= m.len() {
        return &m[0..n];
    }
    &m[0..0]
}

pub fn lent32(m: &[u32], n: usize) -> &[u32] {
    if n <= m.len() {
        return &m[0..n];
    }
    &m[0..0]
}

pub fn lent64(m: &[u64], n: usize) -> &[u64] {
    if n <= m.len() {
        return &m[0..n];
    }
    &m[0..0]
}

// A word, and 0 past the end.
fn word(m: &[u64], at: usize) -> u64 {
    if at < m.len() { m[at] } else { 0 }
}

// One word; past the end it is left out.
fn store(to: &mut [u64], at: usize, value: u16) {
    let wide = value as u64;
    if at < to.len() {
        to[at] = wide;
    }
}

// The same words, wider.
fn widen(from: &[u16], to: &mut [u64]) {
    let mut i: usize = 0;
    while i < from.len() {
        let value = from[i];
        store(to, i, value);
        i += 1;
    }
}

// The words between two places; none where they are no places.
fn entry(m: &[u64], from: usize, to: usize) -> &[u64] {
    if from <= to {
        if to <= m.len() {
            return &m[from..to];
        }
    }
    &m[0..0]
}

fn same(a: &[u64], b: &[u64]) -> bool {
    let mut i: usize = 0;
    while i < a.len() {
        if a[i] != word(b, i) {
            return false;
        }
        i += 1;
    }
    true
}

// An entry's words.
fn tell_words(rt: &impl Print, entry: &[u64]) -> io::Result<()> {
    let mut i: usize = 0;
    while i < entry.len() {
        if 0 < i {
            rt.write_all(b":")?;
        }
        let word = entry[i];
        print!(rt; "{word}")?;
        i += 1;
    }
    Ok(())
}

// An entry that stands so often in a row.
fn tell_entry(rt: &impl Print, entry: &[u64], times: u64) -> io::Result<()> {
    rt.write_all(b" ")?;
    if 1 < times {
        print!(rt; "{times}*")?;
    }
    tell_words(rt, entry)
}

// An entry, unless the next one is alike; how often the next one then stands in a row, the number cut before it can wrap.
fn tell_unless(
    rt: &impl Print,
    here: &[u64],
    there: &[u64],
    last: bool,
    times: u64,
) -> io::Result<u64> {
    if !last {
        if same(here, there) {
            return Ok(times % 4294967296 + 1);
        }
    }
    tell_entry(rt, here, times)?;
    Ok(1)
}

// The entries of a buffer; whether it is zero beyond them.
fn tell_entries(
    rt: &impl Print,
    what: &[u8],
    m: &[u64],
    width: u8,
    count: u64,
) -> io::Result<bool> {
    let step = width as usize;
    let mut from: usize = 0;
    let mut left = count;
    let mut times: u64 = 1;
    if 0 < count {
        rt.write_all(what)?;
    }
    while 0 < left {
        if m.len() <= from {
            return Ok(false);
        }
        let next = from + step;
        let here = entry(m, from, next);
        let there = entry(m, next, next + step);
        times = tell_unless(rt, here, there, left == 1, times)?;
        from = next;
        left -= 1;
    }
    Ok(zero_from(m, from))
}

// How it ended; how many counts the state has.
fn tell_ran(rt: &impl Print, ran: Ran, told: bool) -> io::Result<usize> {
    match ran {
        Ran::Done(steps, results) => {
            rt.write_all(b" done")?;
            tell_number(rt, steps)?;
            tell_number(rt, results)?;
            Ok(6)
        }
        Ran::Trapped(trap, place, steps) => {
            rt.write_all(b" trap")?;
            tell_number(rt, trap)?;
            tell_number(rt, place)?;
            tell_number(rt, steps)?;
            Ok(6)
        }
        Ran::Spent(steps) => {
            rt.write_all(b" spent")?;
            tell_number(rt, steps)?;
            Ok(6)
        }
        Ran::Refused(number, place) => {
            tell_refusal(rt, number, place, told)?;
            Ok(0)
        }
    }
}

fn tell_place(rt: &impl Print, place: u64) -> io::Result<()> {
    print!(rt; " @{place}")
}

// The state; whether it is zero beyond.
fn tell_state(
    rt: &impl Print,
    counts: &[u64],
    objects: &[u64],
    cells: &[u64],
    locals: &[u64],
    operands: &[u64],
    blocks: &[u64],
) -> io::Result<bool> {
    let a = tell_entries(rt, b" objects", objects, 4, word(counts, 1))?;
    let b = tell_entries(rt, b" cells", cells, 2, word(counts, 2))?;
    let c = tell_entries(rt, b" locals", locals, 2, word(counts, 3))?;
    let d = tell_entries(rt, b" operands", operands, 2, word(counts, 4))?;
    let e = tell_entries(rt, b" blocks", blocks, 3, word(counts, 5))?;
    Ok(a & b & c & d & e)
}

// The line behind the name. The scratch is known to be zero or not, and a refusal tells its input or does not.
pub fn tell(
    rt: &impl Print,
    ran: Ran,
    told: bool,
    scratch: bool,
    counts: &[u64],
    objects: &[u16],
    cells: &[u64],
    locals: &[u64],
    operands: &[u64],
    blocks: &[u16],
) -> io::Result<()> {
    let mut wide_objects = [0u64; MORE_OBJECTS];
    let mut wide_blocks = [0u64; MORE_BLOCKS];
    widen(objects, &mut wide_objects);
    widen(blocks, &mut wide_blocks);
    let told = tell_ran(rt, ran, told)?;
    if 0 < told {
        tell_place(rt, word(counts, 0))?;
    }
    let beyond = tell_state(
        rt,
        counts,
        &wide_objects,
        cells,
        locals,
        operands,
        &wide_blocks,
    )?;
    if scratch & beyond & zero_from(counts, told) {
        rt.write_all(b" zero\n")
    } else {
        rt.write_all(b" not zero\n")
    }
}
