// The two passes over the types of a section, in document 01's order: type by type rule 1 and the chain; then, type by type
// again, rules 2 to 5 in rising number of refusal. The first fault is the answer, with the number of its type. The first asks how long
// a chain is, so it needs the depths; the second asks who is below whom, so it needs the ranges. section_decide puts both.
#![tactic(auto)]

ghost use Rattle.std.specs.Prelude.{◌-◌, ◌≡◌, true, false};
ghost use Rattle.scope.specs.Judging.{links_fault, rule_fault, scan};
ghost use Rattle.type_table.specs.View.{view, both_codes};
ghost use Rattle.type_hierarchy.specs.Ranged.{Ranged};
ghost use Rattle.section_judge.specs.Verdict.{fault_is, ruled_is, clauses_fault, follow_fault, fault_of};
ghost use Rattle.section_judge.specs.Ready.{Chained, Ready, Linkable, Scannable};

use scope::{Place, Rejected, refusals};

// The number of the first rule that a type breaks.
#[derive(Clone, Copy)]
pub enum Fault {
    Nothing,
    Number(u64),
}

// Rule 1 and the chain, of one type.
#[tactic(auto, using(crate::proofs::Faults::link_exits))]
fn links_fault(rows: &[u16], shared: &[u16], codes: &[u16], x: u64) -> Fault
    requires { Chained rows.now (both_codes shared.now codes.now) x }
    ensures { result ≡ fault_is (links_fault (view rows.now (both_codes shared.now codes.now)) x) }
{
    if !type_reach::in_reach(rows, shared, codes, x) {
        return Fault::Number(refusals::OUT_OF_REACH);
    }
    if !type_chain::super_earlier_and_open(rows, shared, codes, x) {
        return Fault::Number(refusals::BAD_SUPERTYPE);
    }
    if !type_chain::short_chain(rows, x) {
        return Fault::Number(refusals::OVERSIZE);
    }
    Fault::Nothing
}

// Rules 4 and 5, of one type.
#[tactic(auto, using(crate::proofs::Faults::follow_exits))]
fn follow_fault(rows: &[u16], shared: &[u16], codes: &[u16], x: u64) -> Fault
    ensures { result ≡ fault_is (follow_fault (view rows.now (both_codes shared.now codes.now)) x) }
{
    if !type_follow::descriptor_follows(rows, shared, codes, x) {
        return Fault::Number(refusals::BAD_DESCRIPTOR);
    }
    if !type_follow::describes_follows(rows, shared, codes, x) {
        return Fault::Number(refusals::BAD_DESCRIBES);
    }
    Fault::Nothing
}

// Rules 3 to 5, of one type.
#[tactic(auto, using(crate::proofs::Faults::clause_exits))]
fn clauses_fault(rows: &[u16], shared: &[u16], codes: &[u16], x: u64) -> Fault
    ensures { result ≡ fault_is (clauses_fault (view rows.now (both_codes shared.now codes.now)) x) }
{
    if !type_rules::clauses_on_struct(rows, shared, codes, x) {
        return Fault::Number(refusals::CLAUSE_NOT_ON_STRUCT);
    }
    if !type_rules::describes_earlier(rows, shared, codes, x) {
        return Fault::Number(refusals::DESCRIBES_NOT_EARLIER);
    }
    if !type_rules::clauses_agree(rows, shared, codes, x) {
        return Fault::Number(refusals::CLAUSES_DISAGREE);
    }
    follow_fault(rows, shared, codes, x)
}

// Rules 2 to 5, of one type.
#[tactic(auto, using(crate::proofs::Faults::rule_exits))]
fn rule_fault(rows: &[u16], shared: &[u16], codes: &[u16], x: u64) -> Fault
    requires { Ranged rows.now (both_codes shared.now codes.now) }
    ensures { result ≡ fault_is (rule_fault (view rows.now (both_codes shared.now codes.now)) x) }
{
    if !type_matching::matches_super(rows, shared, codes, x) {
        return Fault::Number(refusals::NO_MATCH);
    }
    clauses_fault(rows, shared, codes, x)
}

// The fault of one type, in the pass over the links or in the pass over the other rules.
#[tactic(auto, using(crate::proofs::Faults::pass_exits, crate::proofs::Passes::ready_exits))]
fn fault_of(rows: &[u16], shared: &[u16], codes: &[u16], links: bool, x: u64) -> Fault
    requires { Ready links rows.now (both_codes shared.now codes.now) x }
    ensures { result ≡ fault_is (fault_of links (view rows.now (both_codes shared.now codes.now)) x) }
{
    if links {
        links_fault(rows, shared, codes, x)
    } else {
        rule_fault(rows, shared, codes, x)
    }
}

// One pass, type by type, over the types from `first` on of n, if there are any. Where none has a fault the answer is where it ended.
#[tactic(auto, using(crate::proofs::Scanning::pass_exits, crate::proofs::Passes::ready_exits))]
fn scan_types(
    rows: &[u16],
    shared: &[u16],
    codes: &[u16],
    links: bool,
    first: u64,
    n: u64,
) -> Result<u64, Rejected>
    requires { Scannable links first n rows.now (both_codes shared.now codes.now) }
    ensures { let types = view rows.now (both_codes shared.now codes.now) in
        result ≡ ruled_is (scan (fault_of links types) first (n - first)) }
{
    for x in first..n {
        if let Fault::Number(number) = fault_of(rows, shared, codes, links, x) {
            return Err(Rejected {
                number,
                place: Place::Plain(x),
            });
        }
    }
    Ok(first.max(n))
}

// The first pass, over the types from `first` on of n, once the end words are depths.
#[tactic(auto, using(crate::proofs::Passes::ready_exits))]
pub fn judge_links(
    rows: &[u16],
    shared: &[u16],
    codes: &[u16],
    first: u64,
    n: u64,
) -> Result<u64, Rejected>
    requires { Linkable first n rows.now (both_codes shared.now codes.now) }
    ensures { let types = view rows.now (both_codes shared.now codes.now) in
        result ≡ ruled_is (scan (fault_of true types) first (n - first)) }
{
    scan_types(rows, shared, codes, true, first, n)
}

// The second pass, once the table has its ranges.
#[tactic(auto, using(crate::proofs::Passes::ready_exits))]
pub fn judge_rules(
    rows: &[u16],
    shared: &[u16],
    codes: &[u16],
    first: u64,
    n: u64,
) -> Result<u64, Rejected>
    requires { Ranged rows.now (both_codes shared.now codes.now) }
    ensures { let types = view rows.now (both_codes shared.now codes.now) in
        result ≡ ruled_is (scan (fault_of false types) first (n - first)) }
{
    scan_types(rows, shared, codes, false, first, n)
}
