// Total access to lent memory of 64-bit words, and values in it. As in lent_u16, no place is out of range: a word past the
// end reads as 0, and a store there does nothing. A value takes two words, its kind and its bits (docs/LAYOUT.md).
#![tactic(auto)]

pub mod layout;

ghost use Rattle.std.specs.Prelude.{◌≡◌, ◌++◌, ◌-◌, length, set, take, replicate};
ghost use Rattle.run_values.specs.Layout.{kind_place, bits_place};
ghost use Rattle.run_values.specs.Values.{Word64At, set_value};

use scope::sizes::VALUE;

// The word at a place, and 0 past the end.
pub fn word64(m: &[u64], at: u64) -> u64
    ensures { Word64At m.now at result }
{
    let i = at as usize;
    if i < m.len() { m[i] } else { 0 }
}

// A number, stored at a place.
pub fn put64(m: &mut [u64], at: u64, v: u64)
    ensures { m.new ≡ set m.old at v }
{
    let i = at as usize;
    if i < m.len() {
        m[i] = v;
    }
}

// Zero in every word.
pub fn wipe64(m: &mut [u64])
    ensures { m.new ≡ replicate (length m.old) 0 }
{
    m.fill(0);
}

// A value in every word from a place on, whatever the width of the words.
pub fn fill_from<W: Copy>(m: &mut [W], from: u64, value: W)
    ensures { m.new ≡ take from m.old ++ replicate (length m.old - from) value }
{
    let start = m.len().min(from as usize);
    for word in &mut m[start..] {
        *word = value;
    }
}

// The kind of value j, and its bits.
pub fn kind_of(m: &[u64], j: u32) -> u64
    ensures { Word64At m.now (kind_place j) result }
{
    word64(m, VALUE * j as u64)
}

pub fn bits_of(m: &[u64], j: u32) -> u64
    ensures { Word64At m.now (bits_place j) result }
{
    word64(m, VALUE * j as u64 + 1)
}

// Value j, by its kind and its bits.
#[tactic(auto, unfolding(crate::specs::Values::set_value))]
pub fn put_value(m: &mut [u64], j: u32, kind: u64, bits: u64)
    ensures { m.new ≡ set_value m.old j kind bits }
{
    put64(m, VALUE * j as u64, kind);
    put64(m, VALUE * j as u64 + 1, bits);
}
