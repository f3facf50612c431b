// Which value types have a default, asked of one type and of a list of fields or of types.
#![tactic(auto)]

ghost use Rattle.std.specs.Prelude.{◌≡◌};
ghost use Rattle.scope.specs.BodyRules.{has_default};
ghost use Rattle.type_table.specs.View.{val_at_code, both_codes};
ghost use Rattle.body_plan_defaults.specs.Defaults.{type_of, all_default};

use type_table::ValKind;

// Numbers and nullable references have a default.
fn has_default(code: u64) -> bool
    ensures { result ≡ has_default (val_at_code code) }
{
    match type_table::val_of(code) {
        ValKind::Number(_) => true,
        ValKind::Ref(null, _) => null,
    }
}

// The code of the value type that a word of the table says: a field's, or a type's.
fn type_of(fields: bool, word: u64) -> u64
    ensures { result ≡ type_of fields word }
{
    if fields { word / 2 } else { word }
}

// Whether each of n fields, or of n types, whose codes start at `first` has a default.
pub fn all_default(shared: &[u16], codes: &[u16], first: u32, n: u32, fields: bool) -> bool
    ensures { result ≡ all_default fields (both_codes shared.now codes.now) first n }
{
    let start = first as u64;
    (start..start + n as u64).all(|at| {
        let word = type_table::code_word(shared, codes, at);
        has_default(type_of(fields, word))
    })
}
