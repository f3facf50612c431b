// Judges bodies by the checker, a case to a line of standard output. The cases stand in the file stdin, in lines that
// lines.rt explains; the file stdout has the answers, worked out by hand from document 01 and never copied from a run.
#![tactic(auto)]

mod judging;
mod lines;

use std::io;

// one byte more than a section or a body may have
const MORE_BYTES: usize = scope::sizes::MOST_BYTES + 1;

fn main(rt: HostRuntime) -> io::Result<()> {
    let mut text = [0u8; 131072];
    let mut library = [0u8; MORE_BYTES];
    let mut section = [0u8; MORE_BYTES];
    let mut body = [0u8; MORE_BYTES];
    let count = cases_text::read_full(&mut rt.reader(), &mut text)?;
    lines::all(&rt, &text[..count], &mut library, &mut section, &mut body)
}
