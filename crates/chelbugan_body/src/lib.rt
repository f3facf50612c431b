// The checker's call for a host in C or Rust, its answer told.
#![tactic(auto)]

ghost use Rattle.chelbugan_told.specs.Told.{BodyTold};

// Judges a body against a function type's number, over a library and an add-on's section.
pub fn judge_body(
    library: &[u8],
    section: &[u8],
    body: &[u8],
    number: u64,
    rows: &mut [u16],
    shared: &mut [u16],
    codes: &mut [u16],
    work: &mut [u32],
    answer: &mut [u64; 4],
) -> u64
    ensures { BodyTold library.now section.now body.now number
        rows.old shared.old codes.old work.old
        rows.new shared.new codes.new work.new result answer.new }
{
    let verdict = body_call::judge_body(library, section, body, number, rows, shared, codes, work);
    chelbugan_told::tell_verdict(verdict, answer)
}
