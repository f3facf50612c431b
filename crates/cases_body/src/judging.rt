// One line for each case: its name; `yes` with the count of instructions, or `no` with the refusal's number and place; and
// `zero` or `not zero`, for what lent memory holds afterwards. Every element of it holds rubbish before the call.
use cases_text::{tell_number, tell_refusal, zero, zero32};
use scope::Rejected;
use scope::sizes::{CODES, ROWS, WORK};
use std::io;

// the most that can be lent: one element more than a buffer's size
const MORE_ROWS: usize = ROWS + 1;

const MORE_CODES: usize = CODES + 1;

const MORE_WORK: usize = WORK + 1;

// How many elements of each buffer are lent.
#[derive(Clone, Copy)]
pub struct Lent {
    pub rows: u64,
    pub shared: u64,
    pub codes: u64,
    pub work: u64,
}

fn tell_verdict(rt: &impl Print, verdict: Result<u64, Rejected>, told: bool) -> io::Result<()> {
    match verdict {
        Ok(count) => {
            rt.write_all(b" yes")?;
            tell_number(rt, count)
        }
        Err(Rejected { number, place }) => tell_refusal(rt, number, place, told),
    }
}

fn tell_memory(
    rt: &impl Print,
    rows: &[u16],
    shared: &[u16],
    codes: &[u16],
    work: &[u32],
) -> io::Result<()> {
    let a = zero(rows);
    let b = zero(shared);
    let c = zero(codes);
    let d = zero32(work);
    if a & b & c & d {
        return rt.write_all(b" zero\n");
    }
    rt.write_all(b" not zero\n")
}

fn judged_in(
    rt: &impl Print,
    name: &[u8],
    library: &[u8],
    section: &[u8],
    body: &[u8],
    number: u64,
    told: bool,
    rows: &mut [u16],
    shared: &mut [u16],
    codes: &mut [u16],
    work: &mut [u32],
) -> io::Result<()> {
    let verdict = body_call::judge_body(library, section, body, number, rows, shared, codes, work);
    rt.write_all(name)?;
    tell_verdict(rt, verdict, told)?;
    tell_memory(rt, rows, shared, codes, work)
}

// So many elements of each buffer are lent.
fn judged_within(
    rt: &impl Print,
    name: &[u8],
    library: &[u8],
    section: &[u8],
    body: &[u8],
    number: u64,
    told: bool,
    lent: Lent,
    rows: &mut [u16],
    shared: &mut [u16],
    codes: &mut [u16],
    work: &mut [u32],
) -> io::Result<()> {
    let r = lent.rows as usize;
    let h = lent.shared as usize;
    let c = lent.codes as usize;
    let w = lent.work as usize;
    if r <= rows.len() {
        if h <= shared.len() {
            if c <= codes.len() {
                if w <= work.len() {
                    return judged_in(
                        rt,
                        name,
                        library,
                        section,
                        body,
                        number,
                        told,
                        &mut rows[0..r],
                        &mut shared[0..h],
                        &mut codes[0..c],
                        &mut work[0..w],
                    );
                }
            }
        }
    }
    Ok(())
}

// Judges one body in fresh memory that holds rubbish, and writes the case's line.
pub fn judged(
    rt: &impl Print,
    name: &[u8],
    library: &[u8],
    section: &[u8],
    body: &[u8],
    number: u64,
    told: bool,
    lent: Lent,
) -> io::Result<()> {
    let mut rows = [42405u16; MORE_ROWS];
    let mut shared = [42405u16; MORE_CODES];
    let mut codes = [42405u16; MORE_CODES];
    let mut work = [2779096485u32; MORE_WORK];
    judged_within(
        rt,
        name,
        library,
        section,
        body,
        number,
        told,
        lent,
        &mut rows,
        &mut shared,
        &mut codes,
        &mut work,
    )
}
