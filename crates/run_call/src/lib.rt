// The loader's public call for trial runs. It trusts no caller to have looked first: any bytes, numbers and buffers may be
// handed in. run_prepare judges and reads with the scratch; only then is the state's memory lent, and the scratch is read only.
#![tactic(auto)]

ghost use Rattle.scope.specs.Answers.{RunTried};
ghost use Rattle.run_buffers.specs.States.{state_of, memory};
ghost use Rattle.run_call.specs.Trial.{Startable, RunStarted, Placed, RunPlaced, Waiting, RunPrepared};
ghost use Rattle.type_table.specs.View.{both_codes};

use scope::{Ran, Rejected};

// The run, and then the state that it leaves.
fn run_started(
    s: &[u8],
    rows: &[u16],
    shared: &[u16],
    codes: &[u16],
    ends: &[u16],
    counts: &mut [u64],
    objects: &mut [u16],
    cells: &mut [u64],
    locals: &mut [u64],
    operands: &mut [u64],
    blocks: &mut [u16],
    count: u16,
    results: u32,
    first: usize,
    budget: u64,
) -> Ran
    requires { let state = state_of counts.old objects.old cells.old locals.old operands.old blocks.old in
        Startable s.now rows.now (both_codes shared.now codes.now) ends.now count state results first }
    ensures { let state = state_of counts.old objects.old cells.old locals.old operands.old blocks.old in
        let state' = state_of counts.new objects.new cells.new locals.new operands.new blocks.new in
        RunStarted s.now rows.now (both_codes shared.now codes.now) count state state' results first budget result }
{
    let ended = run_loop::run_from(
        s, rows, shared, codes, ends, objects, cells, locals, operands, blocks, count, results,
        first, budget,
    );
    let stage = run_ending::stage_of(ended, first);
    run_buffers::settle(
        counts, objects, cells, locals, operands, blocks, stage, count,
    );
    run_ending::tell(ended, first)
}

// The locals at their start, and then the run.
fn run_placed(
    s: &[u8],
    rows: &[u16],
    shared: &[u16],
    codes: &[u16],
    work: &[u32],
    ends: &[u16],
    counts: &mut [u64],
    objects: &mut [u16],
    cells: &mut [u64],
    locals: &mut [u64],
    operands: &mut [u64],
    blocks: &mut [u16],
    count: u16,
    results: u32,
    first: usize,
    budget: u64,
) -> Ran
    requires { let state = state_of counts.old objects.old cells.old locals.old operands.old blocks.old in
        Placed s.now rows.now (both_codes shared.now codes.now) work.now ends.now count state results first }
    ensures { let state = state_of counts.old objects.old cells.old locals.old operands.old blocks.old in
        let state' = state_of counts.new objects.new cells.new locals.new operands.new blocks.new in
        RunPlaced s.now rows.now (both_codes shared.now codes.now) work.now count state state' results first budget result }
{
    run_stack::start_locals(work, locals, count);
    run_started(
        s, rows, shared, codes, ends, counts, objects, cells, locals, operands, blocks, count,
        results, first, budget,
    )
}

// What was prepared: the refusal, over a state that is zero, or the run.
fn run_prepared(
    s: &[u8],
    budget: u64,
    rows: &[u16],
    shared: &[u16],
    codes: &[u16],
    work: &[u32],
    ends: &[u16],
    counts: &mut [u64],
    objects: &mut [u16],
    cells: &mut [u64],
    locals: &mut [u64],
    operands: &mut [u64],
    blocks: &mut [u16],
    prepared: Result<(u16, u32, usize), Rejected>,
) -> Ran
    requires { let state = state_of counts.old objects.old cells.old locals.old operands.old blocks.old in
        Waiting s.now budget rows.now (both_codes shared.now codes.now) work.now ends.now state prepared }
    ensures { let state = state_of counts.old objects.old cells.old locals.old operands.old blocks.old in
        let state' = state_of counts.new objects.new cells.new locals.new operands.new blocks.new in
        RunPrepared s.now budget rows.now (both_codes shared.now codes.now) work.now ends.now state state' prepared result }
{
    match prepared {
        Err(Rejected { number, place }) => Ran::Refused(number, place),
        Ok((count, results, first)) => run_placed(
            s, rows, shared, codes, work, ends, counts, objects, cells, locals, operands, blocks,
            count, results, first, budget,
        ),
    }
}

// Runs a body of a function type's number from an empty heap, for at most so many steps: how it ended and after how many of
// them, with the state after exactly those steps in the six buffers from `counts` on; or the refusal's number and place.
pub fn try_run(
    library: &[u8],
    section: &[u8],
    body: &[u8],
    number: u64,
    budget: u64,
    rows: &mut [u16],
    shared: &mut [u16],
    codes: &mut [u16],
    work: &mut [u32],
    ends: &mut [u16],
    counts: &mut [u64],
    objects: &mut [u16],
    cells: &mut [u64],
    locals: &mut [u64],
    operands: &mut [u64],
    blocks: &mut [u16],
) -> Ran
    ensures { let l = library.now in let s = section.now in let b = body.now in
        let state = state_of counts.old objects.old cells.old locals.old operands.old blocks.old in
        let state' = state_of counts.new objects.new cells.new locals.new operands.new blocks.new in
        let before = memory rows.old shared.old codes.old work.old ends.old state in
        let after = memory rows.new shared.new codes.new work.new ends.new state' in
        RunTried l s b number budget before after result }
{
    run_buffers::clear(counts, objects, cells, locals, operands, blocks);
    let enough = run_buffers::is_enough(counts, objects, cells, locals, operands, blocks);
    let prepared = run_prepare::prepare(
        library, section, body, number, budget, rows, shared, codes, work, ends, enough,
    );
    let ran = run_prepared(
        body, budget, rows, shared, codes, work, ends, counts, objects, cells, locals, operands,
        blocks, prepared,
    );
    run_ending::clear_scratch(rows, shared, codes, work, ends);
    ran
}
