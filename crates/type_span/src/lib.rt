// The range of a type, two words of its row: where it starts, and where it ends. A row that is not there reads as 0, and a store
// there does nothing.
#![tactic(auto)]

ghost use Rattle.std.specs.Prelude.{◌≡◌, ◌+◌, ◌*◌, ◌%◌, set};
ghost use Rattle.scope.specs.Layout.{row_span};
ghost use Rattle.lent_u16.specs.Words.{word_limit, WordAt};
ghost use Rattle.type_span.specs.Span.{start_word, end_word};

use scope::sizes;

// The words, as specs/Span.antt has them.
pub const START: u8 = 12;

pub const END: u8 = 13;

// No lent memory has a row of this number or a higher one, and a lower one's place fits 64 bits.
const NO_ROW: u64 = 576460752303423488;

fn range_word(rows: &[u16], x: u64, k: u8) -> u64
    ensures { WordAt rows.now (row_span * x + k) result }
{
    if x < NO_ROW {
        lent_u16::word(rows, sizes::ROW * x + k as u64)
    } else {
        0
    }
}

pub fn start_of(rows: &[u16], x: u64) -> u64
    ensures { WordAt rows.now (row_span * x + start_word) result }
{
    range_word(rows, x, START)
}

pub fn end_of(rows: &[u16], x: u64) -> u64
    ensures { WordAt rows.now (row_span * x + end_word) result }
{
    range_word(rows, x, END)
}

// A number's lowest 16 bits, stored in a word of a row.
pub fn put_word(rows: &mut [u16], x: u64, k: u8, v: u64)
    ensures { rows.new ≡ set rows.old (row_span * x + k) (v % word_limit) }
{
    if x < NO_ROW {
        lent_u16::put(rows, sizes::ROW * x + k as u64, v);
    }
}
