// The lines of the cases. From a `#` on a line is a remark. What stands before it is, by its first signs:
//   <   the library of the cases that follow: `< 01 5F 00`, `< -` of no bytes; `< none`, as at the start, is the library 00,
//       and answers do not say in which input a place lies
//   =r  how many elements of `rows` are lent to the cases that follow: `=r 16383`; so =h for `shared` and =c for `codes`
//   ?   a question: its name, a type's number, and the bytes of the section that is asked: `?last 1 02 5F 00 ..`
//   !   its name, and the bytes of a section whose table is told word by word
// and anything else a case: its name, and the bytes of the section that is judged.
use crate::lending::{Call, Lent, called};
use cases_text::{
    LIBRARY, LINE_END, Library, REMARK, SPACE, bytes, decimal, find, part, read_library, sign,
};
use scope::sizes::{CODES, ROWS};
use std::io;

const LENT: u8 = b'=';

const QUESTION: u8 = b'?';

const WORDS: u8 = b'!';

const OF_ROWS: u8 = b'r';

const OF_SHARED: u8 = b'h';

// What the lines so far have fixed.
#[derive(Clone, Copy)]
pub struct Setting {
    library: Library,
    lent: Lent,
}

// A line that begins with `<`.
fn with_library(old: Setting, line: &[u8], out: &mut [u8]) -> Setting {
    let library = read_library(line, out);
    let lent = old.lent;
    Setting { library, lent }
}

// A line that begins with `=`.
fn with_lent(old: Setting, line: &[u8]) -> Setting {
    let count = decimal(part(line, 2, line.len()));
    let library = old.library;
    let mut lent = old.lent;
    match sign(line, 1) {
        OF_ROWS => lent.rows = count,
        OF_SHARED => lent.shared = count,
        _ => lent.codes = count,
    }
    Setting { library, lent }
}

// One call with the library of the lines before it.
fn ask<'a>(
    rt: &impl Print,
    setting: Setting,
    call: Call,
    name: &[u8],
    library: &'a [u8],
    section: &'a [u8],
) -> io::Result<()> {
    let length = setting.library.length;
    let told = setting.library.told;
    called(
        rt,
        call,
        name,
        part(library, 0, length),
        section,
        told,
        setting.lent,
    )
}

// A line that begins with `?`, answered by both calls.
fn question(
    rt: &impl Print,
    setting: Setting,
    line: &[u8],
    library: &[u8],
    section: &mut [u8],
) -> io::Result<()> {
    let to = find(line, 1, SPACE);
    if line.len() <= to {
        return Ok(());
    }
    let after = find(line, to + 1, SPACE);
    let name = part(line, 1, to);
    let number = decimal(part(line, to + 1, after));
    let end = bytes(section, line, after);
    ask(
        rt,
        setting,
        Call::Ask(number),
        name,
        library,
        part(section, 0, end),
    )?;
    ask(
        rt,
        setting,
        Call::Hand(number),
        name,
        library,
        part(section, 0, end),
    )
}

// Any other line with a sign in it; a `!` stands before the name.
fn case(
    rt: &impl Print,
    setting: Setting,
    line: &[u8],
    library: &[u8],
    section: &mut [u8],
) -> io::Result<()> {
    let words = sign(line, 0) == WORDS;
    let from = words as usize;
    let to = find(line, from, SPACE);
    let end = bytes(section, line, to);
    ask(
        rt,
        setting,
        Call::Judge(words),
        part(line, from, to),
        library,
        part(section, 0, end),
    )
}

// One line, up to its remark.
fn read(
    rt: &impl Print,
    setting: Setting,
    whole: &[u8],
    library: &mut [u8],
    section: &mut [u8],
) -> io::Result<Setting> {
    let end = find(whole, 0, REMARK);
    let line = part(whole, 0, end);
    match sign(line, 0) {
        LINE_END => Ok(setting),
        LIBRARY => Ok(with_library(setting, line, library)),
        LENT => Ok(with_lent(setting, line)),
        QUESTION => {
            question(rt, setting, line, library, section)?;
            Ok(setting)
        }
        _ => {
            case(rt, setting, line, library, section)?;
            Ok(setting)
        }
    }
}

// Every line of a text. Both buffers have room for one byte more than a section may have, and begin with 00.
pub fn all(rt: &impl Print, text: &[u8], library: &mut [u8], section: &mut [u8]) -> io::Result<()> {
    let mut setting = Setting {
        library: Library {
            length: 1,
            told: false,
        },
        lent: Lent {
            rows: ROWS as u64,
            shared: CODES as u64,
            codes: CODES as u64,
        },
    };
    let mut from: usize = 0;
    while from < text.len() {
        let to = find(text, from, LINE_END);
        let line = part(text, from, to);
        setting = read(rt, setting, line, library, section)?;
        if text.len() <= to {
            return Ok(());
        }
        from = to + 1;
    }
    Ok(())
}
