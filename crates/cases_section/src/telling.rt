// What the lines of all cases share: refusals, and what lent memory holds afterwards.
use cases_text::{tell_number, tell_refusal};
use scope::Place;
use std::io;

// Whether every word from a place on is zero.
fn zero_from(m: &[u16], from: u64) -> bool {
    let mut i = from as usize;
    while i < m.len() {
        if m[i] != 0 {
            return false;
        }
        i += 1;
    }
    true
}

// What lies beyond the three places, and the line's end.
pub fn tell_memory(
    rt: &impl Print,
    rows: &[u16],
    shared: &[u16],
    codes: &[u16],
    row: u64,
    first: u64,
    code: u64,
) -> io::Result<()> {
    if zero_from(rows, row) {
        if zero_from(shared, first) {
            if zero_from(codes, code) {
                return rt.write_all(b" zero\n");
            }
        }
    }
    rt.write_all(b" rubbish\n")
}

// A refusal: all lent words are zero.
pub fn tell_no(
    rt: &impl Print,
    number: u64,
    place: Place,
    told: bool,
    rows: &[u16],
    shared: &[u16],
    codes: &[u16],
) -> io::Result<()> {
    tell_refusal(rt, number, place, told)?;
    tell_memory(rt, rows, shared, codes, 0, 0, 0)
}

// One word, where it is not zero: `6=2` for a 2 at place 6.
fn tell_word(rt: &impl Print, at: u64, word: u16) -> io::Result<()> {
    if word != 0 {
        tell_number(rt, at)?;
        print!(rt; "={word}")?;
    }
    Ok(())
}

// The words that are not zero, each after its place.
fn tell_words(rt: &impl Print, what: &[u8], m: &[u16]) -> io::Result<()> {
    let mut i: usize = 0;
    rt.write_all(what)?;
    while i < m.len() {
        let word = m[i];
        tell_word(rt, i as u64, word)?;
        i += 1;
    }
    Ok(())
}

// The table word by word.
pub fn tell_table(rt: &impl Print, rows: &[u16], shared: &[u16], codes: &[u16]) -> io::Result<()> {
    tell_words(rt, b" rows", rows)?;
    tell_words(rt, b" shared", shared)?;
    tell_words(rt, b" codes", codes)?;
    rt.write_all(b"\n")
}
