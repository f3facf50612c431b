// Total access to lent memory of 16-bit words. No place is out of range: a word past the end reads as 0, and a store there
// does nothing, so that no index is ever a caller's concern.
#![tactic(auto)]

ghost use Rattle.std.specs.Prelude.{◌≡◌, ◌%◌, length, set, replicate};
ghost use Rattle.lent_u16.specs.Words.{word_limit, WordAt};

// The first number that a word cannot hold.
const LIMIT: u64 = 65536;

// The word at a place, and 0 past the end.
pub fn word(m: &[u16], at: u64) -> u64
    ensures { WordAt m.now at result }
{
    let i = at as usize;
    if i < m.len() { m[i] as u64 } else { 0 }
}

// A number's lowest 16 bits, stored at a place.
pub fn put(m: &mut [u16], at: u64, v: u64)
    ensures { m.new ≡ set m.old at (v % word_limit) }
{
    let i = at as usize;
    if i < m.len() {
        m[i] = (v % LIMIT) as u16;
    }
}

// Zero in every word.
pub fn wipe(m: &mut [u16])
    ensures { m.new ≡ replicate (length m.old) 0 }
{
    m.fill(0);
}
