// Whether lent buffers have their one size: 14 of document 01, asked before anything else.
#![tactic(auto)]

ghost use Rattle.std.specs.Prelude.{◌≡◌};
ghost use Rattle.scope.specs.Answers.{table_lent};

use scope::sizes;

// Whether each buffer of the table has its one size.
pub fn table_enough(rows: &[u16], shared: &[u16], codes: &[u16]) -> bool
    ensures { result ≡ table_lent rows.now shared.now codes.now }
{
    if rows.len() < sizes::ROWS {
        return false;
    }
    if shared.len() < sizes::CODES {
        return false;
    }
    sizes::CODES <= codes.len()
}
