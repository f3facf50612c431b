// Runs bodies, a case to a line of standard output. The cases stand in the file stdin, in lines that lines.rt explains; the
// file stdout has the answers, worked out from document 01 and never copied from a run.
#![tactic(auto)]

mod lines;
mod trying;

use scope::sizes;
use std::io;

// one byte more than a section or a body may have
const MORE_BYTES: usize = sizes::MOST_BYTES + 1;

fn main(rt: HostRuntime) -> io::Result<()> {
    let mut text = [0u8; 131072];
    let mut library = [0u8; MORE_BYTES];
    let mut section = [0u8; MORE_BYTES];
    let mut body = [0u8; MORE_BYTES];
    let mut sizes = [
        sizes::ROWS as u64,
        sizes::CODES as u64,
        sizes::CODES as u64,
        sizes::WORK as u64,
        sizes::ENDS as u64,
        sizes::COUNTS as u64,
        sizes::OBJECTS as u64,
        sizes::CELLS as u64,
        sizes::LOCALS as u64,
        sizes::OPERANDS as u64,
        sizes::BLOCKS as u64,
    ];
    let count = cases_text::read_full(&mut rt.reader(), &mut text)?;
    lines::all(
        &rt,
        &text[..count],
        &mut library,
        &mut section,
        &mut body,
        &mut sizes,
    )
}
