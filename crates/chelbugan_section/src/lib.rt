// The calls of the loader for a host in C or Rust, each with its answer told.
#![tactic(auto)]

ghost use Rattle.chelbugan_told.specs.Told.{SectionTold, TypeTold};

// Judges a library and an add-on's section.
pub fn judge_section(
    library: &[u8],
    section: &[u8],
    rows: &mut [u16],
    shared: &mut [u16],
    codes: &mut [u16],
    answer: &mut [u64; 4],
) -> u64
    ensures { SectionTold library.now section.now
        rows.old shared.old codes.old
        rows.new shared.new codes.new result answer.new }
{
    let verdict = section_call::judge_section(library, section, rows, shared, codes);
    chelbugan_told::tell_verdict(verdict, answer)
}

// Asks a library and an add-on's section for a type by number.
pub fn ask_type(
    library: &[u8],
    section: &[u8],
    number: u64,
    rows: &mut [u16],
    shared: &mut [u16],
    codes: &mut [u16],
    answer: &mut [u64; 4],
) -> u64
    ensures { TypeTold library.now section.now number
        rows.old shared.old codes.old
        rows.new shared.new codes.new result answer.new }
{
    let asked = section_call::ask_type(library, section, number, rows, shared, codes);
    chelbugan_told::tell_asked(asked, answer)
}
