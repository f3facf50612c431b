// Cells of a run's heap that are filled, one after the other: copies of values, and the defaults of fields.
#![tactic(auto)]

ghost use Rattle.run_cells.specs.Cells.{CellRoom, CellsCopied, DefaultKind, CellsDefault};
ghost use Rattle.type_table.specs.View.{both_codes};

use run_values::layout;
use scope::sizes;
use type_table::ValKind;

// k values of another memory, from its value `at` on, as cells from `total` on.
pub fn copy_cells(cells: &mut [u64], from: &[u64], at: u32, total: u32, k: u32)
    requires { CellRoom cells.old total k }
    ensures { CellsCopied from.now cells.old cells.new at total k }
{
    for i in 0..k {
        let place = sizes::VALUE * (at as u64 + i as u64);
        let kind = run_values::word64(from, place);
        let bits = run_values::word64(from, place + 1);
        run_values::put_value(cells, total + i, kind, bits);
    }
}

// The kind of the default of a type, whose bits are 0: null for a reference.
fn default_kind(code: u64) -> u64
    ensures { DefaultKind code result }
{
    let val = type_table::val_of(code);
    match val {
        ValKind::Number(k) => k + 1,
        ValKind::Ref(_, _) => layout::NULL,
    }
}

// The defaults of k fields, whose codes stand in the table from `first` on, as cells from `total` on.
pub fn default_cells(
    shared: &[u16],
    codes: &[u16],
    cells: &mut [u64],
    first: u32,
    k: u32,
    total: u32,
)
    requires { CellRoom cells.old total k }
    ensures { CellsDefault (both_codes shared.now codes.now) cells.old cells.new first k total }
{
    for i in 0..k {
        let field = type_table::code_word(shared, codes, first as u64 + i as u64);
        let kind = default_kind(field / 2);
        run_values::put_value(cells, total + i, kind, 0);
    }
}
