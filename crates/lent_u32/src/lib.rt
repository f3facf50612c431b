// Total access to lent memory of 32-bit words: the scratch of a body's check. As in crate lent_u16, no place is out of range: a
// word past the end reads as 0, and a store there does nothing.
#![tactic(auto)]

ghost use Rattle.std.specs.Prelude.{◌≡◌, ◌%◌, length, set, replicate};
ghost use Rattle.lent_u32.specs.Scratch.{word32_limit, Word32At};

// The first number that a word cannot hold.
const LIMIT: u64 = 4294967296;

// The word at a place, and 0 past the end.
pub fn word32(m: &[u32], at: u64) -> u64
    ensures { Word32At m.now at result }
{
    let i = at as usize;
    if i < m.len() { m[i] as u64 } else { 0 }
}

// A number's lowest 32 bits, stored at a place.
pub fn put32(m: &mut [u32], at: u64, v: u64)
    ensures { m.new ≡ set m.old at (v % word32_limit) }
{
    let i = at as usize;
    if i < m.len() {
        m[i] = (v % LIMIT) as u32;
    }
}

// Zero in every word.
pub fn wipe32(m: &mut [u32])
    ensures { m.new ≡ replicate (length m.old) 0 }
{
    m.fill(0);
}
