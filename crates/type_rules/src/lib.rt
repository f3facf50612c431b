// Type rule 3, a function for each part, over the lent table as it stands. Rule 1 is `type_chain` and `type_reach`, rule 2
// `type_matching`, rules 4 and 5 `type_follow`, rule 6 `type_order`. Each answer is the rule's (scope's TypeRules.antt).
#![tactic(auto)]

ghost use Rattle.std.specs.Prelude.{◌≡◌};
ghost use Rattle.scope.specs.TypeRules.{clauses_on_struct, describes_earlier, is_the, clauses_agree};
ghost use Rattle.type_table.specs.View.{view, both_codes};
ghost use Rattle.type_table.specs.Answers.{link_option};
ghost use Rattle.type_rules.specs.Clauses.{descriptor_agrees, described_agrees};

// Rule 3: clauses stand on structs only.
pub fn clauses_on_struct(rows: &[u16], shared: &[u16], codes: &[u16], x: u64) -> bool
    ensures { result ≡ clauses_on_struct (view rows.now (both_codes shared.now codes.now)) x }
{
    if type_table::is_struct(rows, shared, codes, x) {
        return true;
    }
    let described = type_table::describes_of(rows, shared, codes, x);
    let None = described else {
        return false;
    };
    let descriptor = type_table::descriptor_of(rows, shared, codes, x);
    match descriptor {
        None => true,
        Some(_) => false,
    }
}

// Rule 3: describes names an earlier type.
pub fn describes_earlier(rows: &[u16], shared: &[u16], codes: &[u16], x: u64) -> bool
    ensures { result ≡ describes_earlier (view rows.now (both_codes shared.now codes.now)) x }
{
    let described = type_table::describes_of(rows, shared, codes, x);
    match described {
        None => true,
        Some(y) => y < x,
    }
}

// Whether this very type is the one that a link names.
pub fn is_the(link: Option<u64>, y: u64) -> bool
    ensures { result ≡ is_the (link_option link) y }
{
    match link {
        None => false,
        Some(z) => z == y,
    }
}

// Rule 3: if x has descriptor y then y describes x.
fn descriptor_agrees(rows: &[u16], shared: &[u16], codes: &[u16], x: u64) -> bool
    ensures { result ≡ descriptor_agrees (view rows.now (both_codes shared.now codes.now)) x }
{
    let descriptor = type_table::descriptor_of(rows, shared, codes, x);
    match descriptor {
        None => true,
        Some(y) => {
            let back = type_table::describes_of(rows, shared, codes, y);
            is_the(back, x)
        }
    }
}

// Rule 3: and the reverse.
fn described_agrees(rows: &[u16], shared: &[u16], codes: &[u16], x: u64) -> bool
    ensures { result ≡ described_agrees (view rows.now (both_codes shared.now codes.now)) x }
{
    let described = type_table::describes_of(rows, shared, codes, x);
    match described {
        None => true,
        Some(y) => {
            let back = type_table::descriptor_of(rows, shared, codes, y);
            is_the(back, x)
        }
    }
}

pub fn clauses_agree(rows: &[u16], shared: &[u16], codes: &[u16], x: u64) -> bool
    ensures { result ≡ clauses_agree (view rows.now (both_codes shared.now codes.now)) x }
{
    if descriptor_agrees(rows, shared, codes, x) {
        described_agrees(rows, shared, codes, x)
    } else {
        false
    }
}
