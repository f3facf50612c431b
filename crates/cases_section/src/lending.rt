// The loader's three calls on sections, each in fresh memory of which every element holds rubbish.
use crate::asking::{asked, handed};
use crate::judging::judged;
use scope::sizes::{CODES, ROWS};
use std::io;

const RUBBISH: u16 = 42405;

// the most that can be lent: one element more than a buffer's size
const MORE_ROWS: usize = ROWS + 1;

const MORE_CODES: usize = CODES + 1;

// Judging, with the table told word by word or not; asking for a type's place, and for its bytes.
#[derive(Drop)]
pub enum Call {
    Judge(bool),
    Ask(u64),
    Hand(u64),
}

// How many elements of each buffer are lent.
#[derive(Clone, Copy)]
pub struct Lent {
    pub rows: u64,
    pub shared: u64,
    pub codes: u64,
}

fn called_in<'a>(
    rt: &impl Print,
    call: Call,
    name: &[u8],
    library: &'a [u8],
    section: &'a [u8],
    told: bool,
    rows: &mut [u16],
    shared: &mut [u16],
    codes: &mut [u16],
) -> io::Result<()> {
    match call {
        Call::Judge(words) => judged(rt, name, library, section, told, words, rows, shared, codes),
        Call::Ask(number) => asked(
            rt, name, library, section, number, told, rows, shared, codes,
        ),
        Call::Hand(number) => handed(rt, name, library, section, number, rows, shared, codes),
    }
}

// One call, and its line.
pub fn called<'a>(
    rt: &impl Print,
    call: Call,
    name: &[u8],
    library: &'a [u8],
    section: &'a [u8],
    told: bool,
    lent: Lent,
) -> io::Result<()> {
    let mut rows = [RUBBISH; MORE_ROWS];
    let mut shared = [RUBBISH; MORE_CODES];
    let mut codes = [RUBBISH; MORE_CODES];
    let r = lent.rows as usize;
    let h = lent.shared as usize;
    let c = lent.codes as usize;
    if r <= MORE_ROWS {
        if h <= MORE_CODES {
            if c <= MORE_CODES {
                return called_in(
                    rt,
                    call,
                    name,
                    library,
                    section,
                    told,
                    &mut rows[0..r],
                    &mut shared[0..h],
                    &mut codes[0..c],
                );
            }
        }
    }
    Ok(())
}
