// The bits of a LEB128 number: seven of each byte, the lowest first, up to a byte that does not go on. What they mean as a number
// is known to number_values.
#![tactic(auto)]

ghost use Rattle.number_bits.specs.Bits.{MostBytes, GoesOn, BitsRead};

use number_values::TWO_BYTES;

// A number of one byte and the place after it. Or the bits of a number's first bytes: their value, how many bytes they take, the
// place after; or the bytes end before the number does; or it goes on beyond them, with the value of their bits and the place
// after.
#[derive(Clone, Copy)]
pub enum Leb {
    One(u64, usize),
    Bits(u64, u64, usize),
    Cut,
    Long(u64, usize),
}

// Seven bits a byte, lowest first, of at most `most` bytes, after a first byte that goes on; `weight` is that of the next seven.
fn leb_loop(s: &[u8], at: usize, first: u64, most: u64) -> Leb
    requires { GoesOn s.now at first most }
    ensures { BitsRead most s.now at result }
{
    let mut value: u64 = first % TWO_BYTES;
    let mut weight: u64 = TWO_BYTES;
    let mut next = at + 1;
    let mut count: u64 = 1;
    while count < most {
        let read = number_bytes::byte_at(s, next);
        let Some(b) = read else {
            return Leb::Cut;
        };
        count = count + 1;
        if b < TWO_BYTES {
            return Leb::Bits(value + weight * b, count, next + 1);
        }
        value = value + weight * (b % TWO_BYTES);
        weight = weight * TWO_BYTES;
        next = next + 1;
    }
    Leb::Long(value, next)
}

// Most numbers are one byte: that case first, the loop for all others. One byte is never to spare.
pub fn leb_at(s: &[u8], at: usize, most: u64) -> Leb
    requires { MostBytes most }
    ensures { BitsRead most s.now at result }
{
    let read = number_bytes::byte_at(s, at);
    let Some(first) = read else {
        return Leb::Cut;
    };
    if first < TWO_BYTES {
        return Leb::One(first, at + 1);
    }
    leb_loop(s, at, first, most)
}
