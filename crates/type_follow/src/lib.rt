// Type rules 4 and 5, over the lent table as it stands: how the descriptor of a type, and what it describes, follow those of
// its supertype. Each answer is the rule's (scope's TypeRules.antt).
#![tactic(auto)]

ghost use Rattle.std.specs.Prelude.{◌≡◌};
ghost use Rattle.scope.specs.TypeRules.{descriptor_follows, described_follow, describes_follows};
ghost use Rattle.type_table.specs.View.{view, both_codes};
ghost use Rattle.type_table.specs.Answers.{link_option};
ghost use Rattle.type_follow.specs.Following.{descriptor_under};

// Whether x has a descriptor whose supertype is y.
fn descriptor_under(rows: &[u16], shared: &[u16], codes: &[u16], x: u64, y: u64) -> bool
    ensures { result ≡ descriptor_under (view rows.now (both_codes shared.now codes.now)) x y }
{
    let descriptor = type_table::descriptor_of(rows, shared, codes, x);
    match descriptor {
        None => false,
        Some(d) => {
            let above = type_table::super_of(rows, shared, codes, d);
            type_rules::is_the(above, y)
        }
    }
}

// Rule 4: if the supertype has descriptor y, the subtype has a descriptor whose supertype is y.
pub fn descriptor_follows(rows: &[u16], shared: &[u16], codes: &[u16], x: u64) -> bool
    ensures { result ≡ descriptor_follows (view rows.now (both_codes shared.now codes.now)) x }
{
    let above = type_table::super_of(rows, shared, codes, x);
    let Some(p) = above else {
        return true;
    };
    let descriptor = type_table::descriptor_of(rows, shared, codes, p);
    match descriptor {
        None => true,
        Some(y) => descriptor_under(rows, shared, codes, x, y),
    }
}

// What two types describe: both or neither, and as subtype and supertype too.
fn described_follow(
    rows: &[u16],
    shared: &[u16],
    codes: &[u16],
    a: Option<u64>,
    b: Option<u64>,
) -> bool
    ensures { result ≡ described_follow (view rows.now (both_codes shared.now codes.now)) (link_option a) (link_option b) }
{
    match a {
        None => match b {
            None => true,
            Some(_) => false,
        },
        Some(d) => match b {
            None => false,
            Some(e) => {
                let above = type_table::super_of(rows, shared, codes, d);
                type_rules::is_the(above, e)
            }
        },
    }
}

// Rule 5: a type and its supertype both describe or neither does; the described types stand as subtype and supertype too.
pub fn describes_follows(rows: &[u16], shared: &[u16], codes: &[u16], x: u64) -> bool
    ensures { result ≡ describes_follows (view rows.now (both_codes shared.now codes.now)) x }
{
    let above = type_table::super_of(rows, shared, codes, x);
    match above {
        None => true,
        Some(p) => {
            let lower = type_table::describes_of(rows, shared, codes, x);
            let upper = type_table::describes_of(rows, shared, codes, p);
            described_follow(rows, shared, codes, lower, upper)
        }
    }
}
