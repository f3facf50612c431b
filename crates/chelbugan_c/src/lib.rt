// The calls of `chelbugan` for a host in C or Rust, under the same names and with the same contracts. include/chelbugan.h
// documents them. A host is trusted with no more than pointers and lengths: any bytes, numbers and buffers may be handed in.
#![tactic(auto)]

ghost use Rattle.std.specs.Prelude.{◌≡◌};
ghost use Rattle.run_buffers.specs.States.{state_of, memory};
ghost use Rattle.chelbugan_told.specs.Told.{SectionTold, TypeTold, BodyTold, RunTold};
ghost use Rattle.chelbugan.specs.Version.{version};

// Which calls these are, as 10,000 times the first number, 100 times the second and the third.
#[unsafe(no_mangle)]
pub extern "C" fn chelbugan_version() -> u64
    ensures { result ≡ version }
{
    chelbugan::chelbugan_version()
}

// Judges a library and an add-on's section.
#[unsafe(no_mangle)]
pub extern "C" fn chelbugan_judge_section(
    library: &[u8],
    section: &[u8],
    rows: &mut [u16],
    shared: &mut [u16],
    codes: &mut [u16],
    answer: &mut [u64; 4],
) -> u64
    ensures { SectionTold library.now section.now
        rows.old shared.old codes.old
        rows.new shared.new codes.new result answer.new }
{
    chelbugan::chelbugan_judge_section(library, section, rows, shared, codes, answer)
}

// Asks a library and an add-on's section for a type by number.
#[unsafe(no_mangle)]
pub extern "C" fn chelbugan_ask_type(
    library: &[u8],
    section: &[u8],
    number: u64,
    rows: &mut [u16],
    shared: &mut [u16],
    codes: &mut [u16],
    answer: &mut [u64; 4],
) -> u64
    ensures { TypeTold library.now section.now number
        rows.old shared.old codes.old
        rows.new shared.new codes.new result answer.new }
{
    chelbugan::chelbugan_ask_type(library, section, number, rows, shared, codes, answer)
}

// Judges a body against a function type's number, over a library and an add-on's section.
#[unsafe(no_mangle)]
pub extern "C" fn chelbugan_judge_body(
    library: &[u8],
    section: &[u8],
    body: &[u8],
    number: u64,
    rows: &mut [u16],
    shared: &mut [u16],
    codes: &mut [u16],
    work: &mut [u32],
    answer: &mut [u64; 4],
) -> u64
    ensures { BodyTold library.now section.now body.now number
        rows.old shared.old codes.old work.old
        rows.new shared.new codes.new work.new result answer.new }
{
    chelbugan::chelbugan_judge_body(
        library, section, body, number, rows, shared, codes, work, answer,
    )
}

// Makes a trial run of a body, of at most `budget` steps.
#[unsafe(no_mangle)]
pub extern "C" fn chelbugan_try_run(
    library: &[u8],
    section: &[u8],
    body: &[u8],
    number: u64,
    budget: u64,
    rows: &mut [u16],
    shared: &mut [u16],
    codes: &mut [u16],
    work: &mut [u32],
    ends: &mut [u16],
    counts: &mut [u64],
    objects: &mut [u16],
    cells: &mut [u64],
    locals: &mut [u64],
    operands: &mut [u64],
    blocks: &mut [u16],
    answer: &mut [u64; 4],
) -> u64
    ensures { let l = library.now in let s = section.now in let b = body.now in
        let state = state_of counts.old objects.old cells.old locals.old operands.old blocks.old in
        let state' = state_of counts.new objects.new cells.new locals.new operands.new blocks.new in
        let before = memory rows.old shared.old codes.old work.old ends.old state in
        let after = memory rows.new shared.new codes.new work.new ends.new state' in
        RunTold l s b number budget before after result answer.new }
{
    chelbugan::chelbugan_try_run(
        library, section, body, number, budget, rows, shared, codes, work, ends, counts, objects,
        cells, locals, operands, blocks, answer,
    )
}
