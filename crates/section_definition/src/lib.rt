// Reading a definition: what stands before its form, its form, and its row. Of the table's codes a part is lent: a code is
// put where the part is filled so far, and the row says where it lies in the whole.
#![tactic(auto)]

ghost use Rattle.std.specs.Prelude.{◌+◌, ◌≤◌, ◌∷◌, [], length};
ghost use Rattle.scope.specs.Layout.{row_span};
ghost use Rattle.type_table.proofs.Puts.{Puts};
ghost use Rattle.section_definition.specs.Rows.{low, front_low, front_row, RowRoom, FormedRead, DefinitionPut};

use scope::Read;
use section_clauses::Front;
use section_forms::Shape;

// Four words, one after the other.
fn put_four(m: &mut [u16], at: u64, a: u64, b: u64, c: u64, d: u64)
    requires { at + 4 ≤ length m.old }
    ensures { Puts m.old m.new at (low a ∷ low b ∷ low c ∷ low d ∷ []) }
{
    lent_u16::put(m, at, a);
    lent_u16::put(m, at + 1, b);
    lent_u16::put(m, at + 2, c);
    lent_u16::put(m, at + 3, d);
}

// The words of a row, in the order of type_table's RowWords.antt; the range comes later, and the last two are spare.
fn put_row(
    m: &mut [u16],
    at: u64,
    kind: u64,
    n: u64,
    results: u64,
    front: Front,
    from: u64,
    to: u64,
    reach: u64,
    used: u64,
)
    requires { at + row_span ≤ length m.old }
    ensures { Puts m.old m.new at (front_low kind n results front from to reach used) }
{
    let Front { head, clauses } = front;
    put_four(m, at, kind, n, results, head.opens);
    put_four(
        m,
        at + 4,
        head.supers.first,
        clauses.described,
        clauses.describing,
        from,
    );
    put_four(m, at + 8, to, reach, used, head.supers.further);
    put_four(m, at + 12, 0, 0, 0, 0);
}

// The form of a definition that began at `from`, and then its row, which says that `used` codes are before its own.
fn formed_at(
    s: &[u8],
    at: usize,
    from: usize,
    reach: u64,
    front: Front,
    rows: &mut [u16],
    row: u64,
    codes: &mut [u16],
    used: u64,
    filled: u64,
) -> Read<u64>
    requires { RowRoom s.now rows.old codes.old at row used filled }
    ensures { FormedRead (front_row front from reach used) s.now at rows.old rows.new row codes.old codes.new filled result }
{
    let (shape, end) = section_forms::form_at(s, at, codes, filled)?;
    match shape {
        Shape::Struct(n) => {
            put_row(
                rows,
                row,
                type_table::STRUCT,
                n,
                0,
                front,
                from as u64,
                end as u64,
                reach,
                used,
            );
            let full = filled + n;
            Ok((full, end))
        }
        Shape::Func(n, m) => {
            put_row(
                rows,
                row,
                type_table::FUNC,
                n,
                m,
                front,
                from as u64,
                end as u64,
                reach,
                used,
            );
            let parameters = filled + n;
            let full = parameters + m;
            Ok((full, end))
        }
    }
}

// A definition of a group that reaches so far, its row put at `row` and its codes into the part from `filled` on; `base`
// codes are before the part. How far the part is filled then is the answer.
pub fn definition_at(
    s: &[u8],
    at: usize,
    reach: u64,
    rows: &mut [u16],
    row: u64,
    codes: &mut [u16],
    base: u64,
    filled: u64,
) -> Read<u64>
    requires { RowRoom s.now rows.old codes.old at row (base + filled) filled }
    ensures { DefinitionPut reach s.now at rows.old rows.new row codes.old codes.new base filled result }
{
    let used = base + filled;
    let (front, next) = section_clauses::front_at(s, at)?;
    formed_at(s, next, at, reach, front, rows, row, codes, used, filled)
}
