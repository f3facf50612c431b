// One run in fresh memory that holds rubbish, of which so many elements are lent as the sizes say. The arrays are lent to the run by
// their parts and looked at afterwards as arrays, whose lengths their types say.
ghost use Rattle.std.specs.Prelude.{◌≤◌};

use cases_state::{lent16, lent32, lent64, tell, tell_name};
use cases_text::{zero, zero32};
use scope::{Ran, sizes};
use std::io;

// the most that can be lent: one element more than a buffer's size
const MORE_ROWS: usize = sizes::ROWS + 1;

const MORE_CODES: usize = sizes::CODES + 1;

const MORE_WORK: usize = sizes::WORK + 1;

const MORE_ENDS: usize = sizes::ENDS + 1;

const MORE_COUNTS: usize = sizes::COUNTS + 1;

const MORE_OBJECTS: usize = sizes::OBJECTS + 1;

const MORE_CELLS: usize = sizes::CELLS + 1;

const MORE_LOCALS: usize = sizes::LOCALS + 1;

const MORE_OPERANDS: usize = sizes::OPERANDS + 1;

const MORE_BLOCKS: usize = sizes::BLOCKS + 1;

// A size, at most what there is.
fn size(sizes: &[u64], which: usize, most: usize) -> usize
    ensures { result ≤ most }
{
    if which < sizes.len() {
        let n = sizes[which] as usize;
        if n <= most {
            return n;
        }
    }
    most
}

// Whether the scratch is zero, as far as it was lent.
fn scratch_zero(
    rows: &[u16; MORE_ROWS],
    shared: &[u16; MORE_CODES],
    codes: &[u16; MORE_CODES],
    work: &[u32; MORE_WORK],
    ends: &[u16; MORE_ENDS],
    sizes: &[u64],
) -> bool {
    let r = size(sizes, 0, MORE_ROWS);
    let h = size(sizes, 1, MORE_CODES);
    let c = size(sizes, 2, MORE_CODES);
    let w = size(sizes, 3, MORE_WORK);
    let e = size(sizes, 4, MORE_ENDS);
    let a = zero(lent16(rows, r));
    let b = zero(lent16(shared, h));
    let d = zero(lent16(codes, c));
    let f = zero32(lent32(work, w));
    let g = zero(lent16(ends, e));
    a & b & d & f & g
}

// The line behind the name: how the run ended, and the state, as far as it was lent.
fn tell_lent(
    rt: &impl Print,
    ran: Ran,
    told: bool,
    scratch: bool,
    counts: &[u64; MORE_COUNTS],
    objects: &[u16; MORE_OBJECTS],
    cells: &[u64; MORE_CELLS],
    locals: &[u64; MORE_LOCALS],
    operands: &[u64; MORE_OPERANDS],
    blocks: &[u16; MORE_BLOCKS],
    sizes: &[u64],
) -> io::Result<()> {
    let n = size(sizes, 5, MORE_COUNTS);
    let o = size(sizes, 6, MORE_OBJECTS);
    let f = size(sizes, 7, MORE_CELLS);
    let l = size(sizes, 8, MORE_LOCALS);
    let s = size(sizes, 9, MORE_OPERANDS);
    let b = size(sizes, 10, MORE_BLOCKS);
    tell(
        rt,
        ran,
        told,
        scratch,
        lent64(counts, n),
        lent16(objects, o),
        lent64(cells, f),
        lent64(locals, l),
        lent64(operands, s),
        lent16(blocks, b),
    )
}

// Each buffer has room for one element more than its size; so many elements as the sizes say are lent.
pub fn tried(
    rt: &impl Print,
    name: &[u8],
    library: &[u8],
    section: &[u8],
    body: &[u8],
    number: u64,
    budget: u64,
    told: bool,
    sizes: &[u64],
) -> io::Result<()> {
    let mut rows = [42405u16; MORE_ROWS];
    let mut shared = [42405u16; MORE_CODES];
    let mut codes = [42405u16; MORE_CODES];
    let mut work = [2779096485u32; MORE_WORK];
    let mut ends = [42405u16; MORE_ENDS];
    let mut counts = [11936128518282651045u64; MORE_COUNTS];
    let mut objects = [42405u16; MORE_OBJECTS];
    let mut cells = [11936128518282651045u64; MORE_CELLS];
    let mut locals = [11936128518282651045u64; MORE_LOCALS];
    let mut operands = [11936128518282651045u64; MORE_OPERANDS];
    let mut blocks = [42405u16; MORE_BLOCKS];
    let r = size(sizes, 0, MORE_ROWS);
    let h = size(sizes, 1, MORE_CODES);
    let c = size(sizes, 2, MORE_CODES);
    let w = size(sizes, 3, MORE_WORK);
    let e = size(sizes, 4, MORE_ENDS);
    let n = size(sizes, 5, MORE_COUNTS);
    let o = size(sizes, 6, MORE_OBJECTS);
    let f = size(sizes, 7, MORE_CELLS);
    let l = size(sizes, 8, MORE_LOCALS);
    let s = size(sizes, 9, MORE_OPERANDS);
    let b = size(sizes, 10, MORE_BLOCKS);
    let ran = run_call::try_run(
        library,
        section,
        body,
        number,
        budget,
        &mut rows[0..r],
        &mut shared[0..h],
        &mut codes[0..c],
        &mut work[0..w],
        &mut ends[0..e],
        &mut counts[0..n],
        &mut objects[0..o],
        &mut cells[0..f],
        &mut locals[0..l],
        &mut operands[0..s],
        &mut blocks[0..b],
    );
    tell_name(rt, name)?;
    let scratch = scratch_zero(&rows, &shared, &codes, &work, &ends, sizes);
    tell_lent(
        rt, ran, told, scratch, &counts, &objects, &cells, &locals, &operands, &blocks, sizes,
    )
}
