// The lines of the cases. From a `#` on a line is a remark. What stands before it is, by its first signs:
//   <   the library of the cases that follow: `< 01 5F 00`; `< none`, as at the start, is the library 00, and answers do not
//       say in which input a place lies
//   :   the number of a function type, and the add-on's section, for the cases that follow: `: 2 02 4E ..`
//   =r  how many elements of `rows` are lent to the cases that follow: `=r 16383`; so =h for `shared`, =c for `codes` and =w
//       for `work`
// and anything else a case: its name, and the bytes of its body.
use crate::judging::{Lent, judged};
use cases_text::{
    LIBRARY, LINE_END, Library, REMARK, SPACE, bytes, decimal, find, part, read_library, sign,
};
use scope::sizes;
use std::io;

const SECTION: u8 = b':';

const LENT: u8 = b'=';

const ROWS: u8 = b'r';

const SHARED: u8 = b'h';

const CODES: u8 = b'c';

// What the lines so far have fixed: the library, how many bytes the section has, the function type's number, and the lent
// elements.
#[derive(Clone, Copy)]
pub struct Setting {
    library: Library,
    length: usize,
    number: u64,
    lent: Lent,
}

// A line that begins with `<`.
fn with_library(old: Setting, line: &[u8], out: &mut [u8]) -> Setting {
    let library = read_library(line, out);
    let lent = old.lent;
    Setting {
        library,
        length: old.length,
        number: old.number,
        lent,
    }
}

// A line that begins with `:`.
fn with_section(old: Setting, line: &[u8], section: &mut [u8]) -> Setting {
    let to = find(line, 2, SPACE);
    let number = decimal(part(line, 2, to));
    let length = bytes(section, line, to);
    let library = old.library;
    let lent = old.lent;
    Setting {
        library,
        length,
        number,
        lent,
    }
}

// A line that begins with `=`.
fn with_lent(old: Setting, line: &[u8]) -> Setting {
    let count = decimal(part(line, 2, line.len()));
    let library = old.library;
    let mut lent = old.lent;
    match sign(line, 1) {
        ROWS => lent.rows = count,
        SHARED => lent.shared = count,
        CODES => lent.codes = count,
        _ => lent.work = count,
    }
    Setting {
        library,
        length: old.length,
        number: old.number,
        lent,
    }
}

// A case: its body is judged against the sections of the lines before it.
fn case(
    rt: &impl Print,
    setting: Setting,
    line: &[u8],
    library: &[u8],
    section: &[u8],
    body: &mut [u8],
) -> io::Result<()> {
    let to = find(line, 0, SPACE);
    let end = bytes(body, line, to);
    let before = setting.library.length;
    let told = setting.library.told;
    let length = setting.length;
    judged(
        rt,
        part(line, 0, to),
        part(library, 0, before),
        part(section, 0, length),
        part(body, 0, end),
        setting.number,
        told,
        setting.lent,
    )
}

// One line, up to its remark.
fn read(
    rt: &impl Print,
    setting: Setting,
    whole: &[u8],
    library: &mut [u8],
    section: &mut [u8],
    body: &mut [u8],
) -> io::Result<Setting> {
    let end = find(whole, 0, REMARK);
    let line = part(whole, 0, end);
    match sign(line, 0) {
        LINE_END => Ok(setting),
        LIBRARY => Ok(with_library(setting, line, library)),
        SECTION => Ok(with_section(setting, line, section)),
        LENT => Ok(with_lent(setting, line)),
        _ => {
            case(rt, setting, line, library, section, body)?;
            Ok(setting)
        }
    }
}

// Every line of a text. The buffers have room for one byte more than a section or a body may have, and begin with 00.
pub fn all(
    rt: &impl Print,
    text: &[u8],
    library: &mut [u8],
    section: &mut [u8],
    body: &mut [u8],
) -> io::Result<()> {
    let mut setting = Setting {
        library: Library {
            length: 1,
            told: false,
        },
        length: 0,
        number: 0,
        lent: Lent {
            rows: sizes::ROWS as u64,
            shared: sizes::CODES as u64,
            codes: sizes::CODES as u64,
            work: sizes::WORK as u64,
        },
    };
    let mut from: usize = 0;
    while from < text.len() {
        let to = find(text, from, LINE_END);
        let line = part(text, from, to);
        setting = read(rt, setting, line, library, section, body)?;
        if text.len() <= to {
            return Ok(());
        }
        from = to + 1;
    }
    Ok(())
}
