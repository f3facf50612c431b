// The locals of a body at its start, in lent scratch: their types, the parameters' first, and which of them are set.
#![tactic(auto)]

ghost use Rattle.std.specs.Prelude.{◌≡◌, ◌≤◌, length};
ghost use Rattle.scope.specs.Memory.{flag};
ghost use Rattle.scope.specs.Bodies.{locals_at};
ghost use Rattle.body_start.specs.Beginning.{locals_first, ParametersPut, starts_set, MarkRoom, MarksPut, Starting, StartingAt, StartedAs};
ghost use Rattle.type_table.specs.View.{both_codes};

use scope::Read;
use type_table::ValKind;

// The types of the n parameters, whose codes stand in the table from `first` on.
#[tactic(auto, using(crate::proofs::Parameters::parameters_turn))]
fn put_parameters(shared: &[u16], codes: &[u16], work: &mut [u32], first: u32, n: u32)
    requires { n ≤ length work.old }
    ensures { ParametersPut (both_codes shared.now codes.now) work.old work.new first n }
{
    for i in 0..n as u64 {
        let code = type_table::code_word(shared, codes, first as u64 + i);
        lent_u32::put32(work, i, code);
    }
}

// The mark of local i: 1, the function's own frame, for a parameter and for a local with a default; else 0.
#[tactic(auto, using(crate::proofs::Marking::mark_exits))]
fn start_mark(work: &[u32], params: u32, i: u64) -> u64
    ensures { result ≡ flag (starts_set work.now params i) }
{
    if i < params as u64 {
        return 1;
    }
    let code = lent_u32::word32(work, i);
    let val = type_table::val_of(code % body_state::CODE_BOUND);
    match val {
        ValKind::Number(_) => 1,
        ValKind::Ref(nullable, _) => { if nullable { 1 } else { 0 } }
    }
}

// The marks of all locals. A stamp is 0, as the frame's is.
fn mark_start(work: &mut [u32], params: u32, count: u64)
    requires { MarkRoom work.old count }
    ensures { MarksPut work.old work.new params count }
{
    for i in 0..count {
        let mark = start_mark(work, params, i);
        lent_u32::put32(work, body_state::MARKS + i, mark);
    }
}

// The locals after the count of their entries: how many there are with the parameters.
fn start_at(
    s: &[u8],
    entries: usize,
    n: u64,
    shared: &[u16],
    codes: &[u16],
    work: &mut [u32],
    types: u16,
    first: u32,
    params: u32,
) -> Read<u16>
    requires { StartingAt work.old types params s.now entries }
    ensures { let before = work.old in
        let after = work.new in
        let read = locals_at types n params s.now entries in
        StartedAs read s.now (both_codes shared.now codes.now) before after first params result }
{
    put_parameters(shared, codes, work, first, params);
    let (count, next) = body_locals::locals_at(
        s,
        entries,
        n,
        types as u64,
        work,
        0,
        params as u64,
    )?;
    mark_start(work, params, count);
    Ok((count as u16, next))
}

// A body's locals, read from its first byte on into scratch that is all zero.
pub fn start(
    s: &[u8],
    shared: &[u16],
    codes: &[u16],
    work: &mut [u32],
    types: u16,
    first: u32,
    params: u32,
) -> Read<u16>
    requires { Starting work.old types params }
    ensures { let before = work.old in
        let after = work.new in
        let read = locals_first types params s.now in
        StartedAs read s.now (both_codes shared.now codes.now) before after first params result }
{
    let (n, entries) = number::u32_at(s, 0)?;
    start_at(s, entries, n, shared, codes, work, types, first, params)
}
