// Asking for a type by number, two lines for each question: where the definition's bytes lie and in which section, and these
// bytes; or the refusal, and no bytes. The last word is `table` where lent memory is as after judging both sections alone,
// `zero` after a refusal.
use crate::telling::{tell_memory, tell_no};
use cases_text::{tell_input, tell_number};
use scope::Asked;
use scope::sizes::{CODES, ROWS};
use std::io;

// Whether two parts of memory hold the same words.
fn same_words(a: &[u16], b: &[u16]) -> bool {
    if a.len() != b.len() {
        return false;
    }
    let mut i: usize = 0;
    while i < a.len() {
        if a[i] != b[i] {
            return false;
        }
        i += 1;
    }
    true
}

// Whether lent memory holds what the sections alone leave in memory of their own.
fn as_alone(rows: &[u16], shared: &[u16], codes: &[u16], library: &[u8], section: &[u8]) -> bool {
    let mut rows_alone = [0u16; ROWS];
    let mut shared_alone = [0u16; CODES];
    let mut codes_alone = [0u16; CODES];
    let _ = section_call::judge_section(
        library,
        section,
        &mut rows_alone,
        &mut shared_alone,
        &mut codes_alone,
    );
    let a = same_words(rows, &rows_alone);
    let b = same_words(shared, &shared_alone);
    let c = same_words(codes, &codes_alone);
    a & b & c
}

// What lent memory holds after a yes.
fn tell_kept(
    rt: &impl Print,
    rows: &[u16],
    shared: &[u16],
    codes: &[u16],
    library: &[u8],
    section: &[u8],
) -> io::Result<()> {
    if as_alone(rows, shared, codes, library, section) {
        return rt.write_all(b" table\n");
    }
    rt.write_all(b" rubbish\n")
}

fn tell_byte(rt: &impl Print, byte: u8) -> io::Result<()> {
    print!(rt; "{byte:02x}")
}

// Bytes in hexadecimal; `-` where there are none.
fn tell_bytes(rt: &impl Print, part: &[u8]) -> io::Result<()> {
    if part.len() == 0 {
        return rt.write_all(b"-");
    }
    let mut i: usize = 0;
    while i < part.len() {
        tell_byte(rt, part[i])?;
        i += 1;
    }
    Ok(())
}

// Where the bytes lie, and in which section.
fn tell_at(rt: &impl Print, from: u64, to: u64, input: &[u8], told: bool) -> io::Result<()> {
    rt.write_all(b" at")?;
    tell_number(rt, from)?;
    tell_number(rt, to)?;
    tell_input(rt, input, told)
}

// Where the bytes lie and what lent memory holds; or the refusal.
fn tell_asked(
    rt: &impl Print,
    asked: Asked,
    library: &[u8],
    section: &[u8],
    told: bool,
    rows: &[u16],
    shared: &[u16],
    codes: &[u16],
) -> io::Result<()> {
    match asked {
        Asked::Library(from, to) => {
            tell_at(rt, from, to, b" library", told)?;
            tell_kept(rt, rows, shared, codes, library, section)
        }
        Asked::Addon(from, to) => {
            tell_at(rt, from, to, b" addon", told)?;
            tell_kept(rt, rows, shared, codes, library, section)
        }
        Asked::Refused(refusal, place) => tell_no(rt, refusal, place, told, rows, shared, codes),
    }
}

// The first line.
pub fn asked(
    rt: &impl Print,
    name: &[u8],
    library: &[u8],
    section: &[u8],
    number: u64,
    told: bool,
    rows: &mut [u16],
    shared: &mut [u16],
    codes: &mut [u16],
) -> io::Result<()> {
    let asked = section_call::ask_type(library, section, number, rows, shared, codes);
    rt.write_all(name)?;
    tell_asked(rt, asked, library, section, told, rows, shared, codes)
}

// The bytes and what lent memory holds; none after a refusal.
fn tell_handed(
    rt: &impl Print,
    part: &[u8],
    library: &[u8],
    section: &[u8],
    rows: &[u16],
    shared: &[u16],
    codes: &[u16],
) -> io::Result<()> {
    rt.write_all(b" bytes ")?;
    tell_bytes(rt, part)?;
    if part.len() == 0 {
        return tell_memory(rt, rows, shared, codes, 0, 0, 0);
    }
    tell_kept(rt, rows, shared, codes, library, section)
}

// The second line.
pub fn handed<'a>(
    rt: &impl Print,
    name: &[u8],
    library: &'a [u8],
    section: &'a [u8],
    number: u64,
    rows: &mut [u16],
    shared: &mut [u16],
    codes: &mut [u16],
) -> io::Result<()> {
    let part = section_call::type_bytes(library, section, number, rows, shared, codes);
    rt.write_all(name)?;
    tell_handed(rt, part, library, section, rows, shared, codes)
}
