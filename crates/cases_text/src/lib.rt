// What the programs with cases in a file share. Bytes that are written as text: words of hexadecimal digits, with a space
// between two; `512*4100` is 512 times 41 00, and `63*5001++5F00` counts: 50 01 00 5F 00, 50 01 01 5F 00 and so on. Only reading
// and printing can fail: what does not fit is left out, and a sign that is no digit counts as 0. And whether lent words are zero, the
// line that sets a library, a refusal as text, and the reading of the cases.
#![tactic(auto)]

ghost use Rattle.std.specs.Prelude.{◌≤◌, length, IfOk};

use scope::Place;
use std::io;
use std::io::Read;

pub const SPACE: u8 = b' ';

pub const LINE_END: u8 = b'\n';

pub const REMARK: u8 = b'#';

// the first sign of a line that sets the library, and of its word for none
pub const LIBRARY: u8 = b'<';

const NONE: u8 = b'n';

const STAR: u8 = b'*';

const PLUS: u8 = b'+';

// A line's sign at a place, and past the end a line's end.
pub fn sign(line: &[u8], at: usize) -> u8 {
    if at < line.len() { line[at] } else { LINE_END }
}

// The first place from a place on where a mark stands; the text's end where there is none.
pub fn find(text: &[u8], from: usize, mark: u8) -> usize
    ensures { from ≤ result }
{
    let mut at = from;
    while at < text.len() {
        if text[at] == mark {
            return at;
        }
        at += 1;
    }
    at
}

// The text between two places, or all of it where they are none of its places.
pub fn part(text: &[u8], from: usize, to: usize) -> &[u8] {
    if from <= to {
        if to <= text.len() {
            return &text[from..to];
        }
    }
    text
}

// A decimal or hexadecimal digit.
fn digit(sign: u8) -> u64 {
    match sign {
        48..=57 => (sign - 48) as u64,
        65..=70 => (sign - 55) as u64,
        _ => 0,
    }
}

// The number that a word's decimal digits say, below 2^64.
pub fn decimal(word: &[u8]) -> u64 {
    let mut n: u64 = 0;
    let mut i: usize = 0;
    while i < word.len() {
        let sign = word[i];
        let tens = (n % 1844674407370955162) * 10;
        n = tens.wrapping_add(digit(sign) % 10);
        i += 1;
    }
    n
}

// The byte of two hexadecimal digits; `++` is how often the word stood before.
fn byte(high: u8, low: u8, before: u64) -> u8 {
    if high == PLUS {
        return (before % 256) as u8;
    }
    let value = 16 * (digit(high) % 16) + digit(low) % 16;
    (value % 256) as u8
}

// One byte, and the place after it.
fn store(out: &mut [u8], at: usize, byte: u8) -> usize {
    if at < out.len() {
        out[at] = byte;
        return at + 1;
    }
    at
}

// The bytes of a word from a place of `out` on; the place after them.
fn put(out: &mut [u8], at: usize, word: &[u8], before: u64) -> usize {
    let mut end = at;
    let mut low: usize = 1;
    while low < word.len() {
        let value = byte(word[low - 1], word[low], before);
        end = store(out, end, value);
        low += 2;
    }
    end
}

// The same so many times.
fn repeat(out: &mut [u8], at: usize, word: &[u8], times: u64) -> usize {
    let mut end = at;
    let mut before: u64 = 0;
    while before < times {
        end = put(out, end, word, before);
        before += 1;
    }
    end
}

// A word's bytes, repeated where a star stands in it.
fn put_word(out: &mut [u8], at: usize, word: &[u8]) -> usize {
    let star = find(word, 0, STAR);
    if star < word.len() {
        let times = decimal(part(word, 0, star));
        let piece = part(word, star + 1, word.len());
        return repeat(out, at, piece, times);
    }
    put(out, at, word, 0)
}

// The bytes of all words of a line from a place on, laid at the start of `out`; how many they are.
pub fn bytes(out: &mut [u8], line: &[u8], start: usize) -> usize {
    let mut end: usize = 0;
    let mut from = start;
    while from < line.len() {
        let to = find(line, from, SPACE);
        let word = part(line, from, to);
        end = put_word(out, end, word);
        if line.len() <= to {
            return end;
        }
        from = to + 1;
    }
    end
}

pub fn zero(m: &[u16]) -> bool {
    let mut i: usize = 0;
    while i < m.len() {
        if m[i] != 0 {
            return false;
        }
        i += 1;
    }
    true
}

pub fn zero32(m: &[u32]) -> bool {
    let mut i: usize = 0;
    while i < m.len() {
        if m[i] != 0 {
            return false;
        }
        i += 1;
    }
    true
}

// The library of the cases that follow: how many bytes it has, and whether an answer says in which input its place lies.
#[derive(Clone, Copy)]
pub struct Library {
    pub length: usize,
    pub told: bool,
}

// A line that begins with `<`: the library's bytes are laid at the start of `out`. `< none` is the library of no types, and
// its cases are answered as if there were no library.
pub fn read_library(line: &[u8], out: &mut [u8]) -> Library {
    if sign(line, 2) == NONE {
        let length = bytes(out, b"00", 0);
        return Library {
            length,
            told: false,
        };
    }
    let length = bytes(out, line, 1);
    Library { length, told: true }
}

// A space, and a number.
pub fn tell_number(rt: &impl Print, n: u64) -> io::Result<()> {
    print!(rt; " {n}")
}

// The word for an input, where it is told.
pub fn tell_input(rt: &impl Print, input: &[u8], told: bool) -> io::Result<()> {
    if told {
        rt.write_all(input)?;
    }
    Ok(())
}

// A refusal: `no`, its number, its place, and the input that the place is a byte of.
pub fn tell_refusal(rt: &impl Print, number: u64, place: Place, told: bool) -> io::Result<()> {
    rt.write_all(b" no")?;
    tell_number(rt, number)?;
    match place {
        Place::Library(at) => {
            tell_number(rt, at)?;
            tell_input(rt, b" library", told)
        }
        Place::Addon(at) => {
            tell_number(rt, at)?;
            tell_input(rt, b" addon", told)
        }
        Place::Plain(at) => tell_number(rt, at),
    }
}

// Reads until `out` is full or the input ends; how many bytes it put at the start of `out`.
pub fn read_full(reader: &mut impl Read, out: &mut [u8]) -> io::Result<usize>
    ensures { IfOk result (λ n. n ≤ length out.new) }
{
    let mut end: usize = 0;
    while end < out.len() {
        let count = reader.read(&mut out[end..])?;
        if count == 0 {
            break;
        }
        end += count;
    }
    Ok(end)
}
