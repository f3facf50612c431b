// The numeric instructions by their first byte: how many operands, their kind, and the kind of the result, as one table of 256
// entries says. The table is lent: whoever judges a body lays it out once (body_instructions), since the compiler would lay it out
// anew wherever it is read.
#![tactic(auto)]

ghost use Rattle.std.specs.Prelude.{◌≡◌, get_or};
ghost use Rattle.scope.specs.Numeric.{numeric_of};
ghost use Rattle.body_numeric.specs.Entries.{coded, is_numeric, Tabled};

// What a first byte says: how many operands, and the codes of their type and of the result's type; no operands where the
// byte is no numeric code.
#[derive(Clone, Copy)]
pub struct NumericRow {
    pub operands: u64,
    pub kind: u64,
    pub result: u64,
}

// The table's entry of a first byte, and 0 past its end.
fn numeric_word(table: &[u8], b: u8) -> u8
    ensures { result ≡ get_or table.now b 0 }
{
    let k = b as usize;
    if k < table.len() { table[k] } else { 0 }
}

// The first and the last numeric code.
const FIRST: u8 = 0x45;

const LAST: u8 = 0xC4;

// Whether a first byte is a numeric code: "45 to C4". The table has an entry for no other.
pub fn is_numeric(b: u8) -> bool
    ensures { result ≡ is_numeric b }
{
    if b < FIRST {
        return false;
    }
    b <= LAST
}

// What a first byte says of a numeric instruction.
pub fn numeric_row(table: &[u8], b: u8) -> NumericRow
    requires { Tabled table.now }
    ensures { result ≡ coded (numeric_of b) }
{
    let n = numeric_word(table, b) as u64;
    NumericRow {
        operands: n / 16,
        kind: n / 4 % 4,
        result: n % 4,
    }
}
