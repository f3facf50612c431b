// One instruction of a body, whatever it is: read, then judged.
#![tactic(auto)]

ghost use Rattle.type_table.specs.View.{both_codes};
ghost use Rattle.type_hierarchy.specs.Ranged.{Ranged};
ghost use Rattle.body_turn.specs.Turning.{Turning, Turned};

use body_state::{Check, Scene, Step};
use scope::Refused;

// A refusal's number and place; the place after the last `end`; or where the check stands then, and the place.
#[derive(Clone, Copy)]
pub enum Turn {
    Refused(u64, usize),
    Finished(usize),
    On(Check, usize),
}

pub fn turn_at(
    rows: &[u16],
    shared: &[u16],
    codes: &[u16],
    table: &[u8],
    work: &mut [u32],
    scene: Scene,
    check: Check,
    s: &[u8],
    at: usize,
) -> Turn
    requires turning { Turning table.now work.old scene check s.now at }
    requires ranged { Ranged rows.now (both_codes shared.now codes.now) }
    ensures { let both = both_codes shared.now codes.now in
        Turned rows.now both work.old work.new scene check s.now at result }
{
    let read = body_instruction::instruction_at(s, at);
    match read {
        Err(Refused { number, at: place }) => Turn::Refused(number, place),
        Ok((i, following)) => {
            let stepped = body_step::step(
                rows, shared, codes, table, work, scene, check, at as u64, i,
            );
            match stepped {
                Step::Fault(number) => Turn::Refused(number, at),
                Step::Finished => Turn::Finished(following),
                Step::On(later) => Turn::On(later, following),
            }
        }
    }
}
