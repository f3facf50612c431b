// The lines of the cases. From a `#` on a line is a remark. What stands before it is, by its first signs:
//   <   the library of the cases that follow: `< 01 5F 00`; `< none`, as at the start, is the library 00, and answers do not
//       say in which input a place lies
//   :   the number of a function type, and the add-on's section, for the cases that follow: `: 2 02 4E ..`
//   =r  how many elements of `rows` are lent to the cases that follow: `=r 16383`; so =h for `shared`, =c `codes`, =w `work`,
//       =e `ends`, =n `counts`, =o `objects`, =f `cells`, =l `locals`, =s `operands`, =b `blocks`
// and anything else a case: its name, its budget, and the bytes of its body.
use crate::trying::tried;
use cases_text::{
    LIBRARY, LINE_END, Library, REMARK, SPACE, bytes, decimal, find, part, read_library, sign,
};
use std::io;

const SECTION: u8 = b':';

const LENT: u8 = b'=';

// What the lines so far have fixed: the library, how many bytes the section has, and the function type's number.
#[derive(Clone, Copy)]
pub struct Setting {
    library: Library,
    length: usize,
    number: u64,
}

// A line that begins with `<`.
fn with_library(old: Setting, line: &[u8], out: &mut [u8]) -> Setting {
    let library = read_library(line, out);
    Setting {
        library,
        length: old.length,
        number: old.number,
    }
}

// A line that begins with `:`.
fn with_section(old: Setting, line: &[u8], section: &mut [u8]) -> Setting {
    let to = find(line, 2, SPACE);
    let number = decimal(part(line, 2, to));
    let length = bytes(section, line, to);
    let library = old.library;
    Setting {
        library,
        length,
        number,
    }
}

// Which of the eleven sizes a sign stands for.
fn buffer(sign: u8) -> usize {
    match sign {
        b'r' => 0,
        b'h' => 1,
        b'c' => 2,
        b'w' => 3,
        b'e' => 4,
        b'n' => 5,
        b'o' => 6,
        b'f' => 7,
        b'l' => 8,
        b's' => 9,
        _ => 10,
    }
}

// A line that begins with `=`.
fn set_size(line: &[u8], sizes: &mut [u64]) {
    let which = buffer(sign(line, 1));
    let count = decimal(part(line, 2, line.len()));
    if which < sizes.len() {
        sizes[which] = count;
    }
}

// A case: its body is run with the sections of the lines before it.
fn case(
    rt: &impl Print,
    setting: Setting,
    line: &[u8],
    library: &[u8],
    section: &[u8],
    body: &mut [u8],
    sizes: &[u64],
) -> io::Result<()> {
    let to = find(line, 0, SPACE);
    if line.len() <= to {
        return Ok(());
    }
    let after = find(line, to + 1, SPACE);
    let budget = decimal(part(line, to + 1, after));
    let end = bytes(body, line, after);
    let before = setting.library.length;
    let told = setting.library.told;
    let length = setting.length;
    tried(
        rt,
        part(line, 0, to),
        part(library, 0, before),
        part(section, 0, length),
        part(body, 0, end),
        setting.number,
        budget,
        told,
        sizes,
    )
}

// One line, up to its remark.
fn read(
    rt: &impl Print,
    setting: Setting,
    whole: &[u8],
    library: &mut [u8],
    section: &mut [u8],
    body: &mut [u8],
    sizes: &mut [u64],
) -> io::Result<Setting> {
    let end = find(whole, 0, REMARK);
    let line = part(whole, 0, end);
    match sign(line, 0) {
        LINE_END => Ok(setting),
        LIBRARY => Ok(with_library(setting, line, library)),
        SECTION => Ok(with_section(setting, line, section)),
        LENT => {
            set_size(line, sizes);
            Ok(setting)
        }
        _ => {
            case(rt, setting, line, library, section, body, sizes)?;
            Ok(setting)
        }
    }
}

// Every line of a text. The buffers have room for one byte more than a section or a body may have, and begin with 00.
pub fn all(
    rt: &impl Print,
    text: &[u8],
    library: &mut [u8],
    section: &mut [u8],
    body: &mut [u8],
    sizes: &mut [u64],
) -> io::Result<()> {
    let mut setting = Setting {
        library: Library {
            length: 1,
            told: false,
        },
        length: 0,
        number: 0,
    };
    let mut from: usize = 0;
    while from < text.len() {
        let to = find(text, from, LINE_END);
        let line = part(text, from, to);
        setting = read(rt, setting, line, library, section, body, sizes)?;
        if text.len() <= to {
            return Ok(());
        }
        from = to + 1;
    }
    Ok(())
}
