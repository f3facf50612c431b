// A body against the table of an accepted section: its size, 27, the locals, the instructions, and last, 5.
#![tactic(auto)]

ghost use Rattle.std.specs.Prelude.{◌≡◌};
ghost use Rattle.body_judge.specs.Typed.{finished_as, Typing, TypedJudged, Sized, SizedJudged};
ghost use Rattle.type_table.specs.View.{both_codes};
ghost use Rattle.type_hierarchy.specs.Ranged.{Ranged};

use body_state::Scene;
use scope::{Place, Read, Refused, Rejected, refusals, sizes};
use type_table::Shape;

// Last, 5: nothing follows the last `end`.
fn finish(s: &[u8], ended: Read<u64>) -> Result<u64, Rejected>
    ensures { result ≡ finished_as s.now ended }
{
    match ended {
        Err(Refused { number, at: place }) => Err(Rejected {
            number,
            place: Place::Plain(place as u64),
        }),
        Ok((count, stop)) => {
            if stop == s.len() {
                return Ok(count);
            }
            Err(Rejected {
                number: refusals::LEFT_OVER,
                place: Place::Plain(stop as u64),
            })
        }
    }
}

// A body against the table of an accepted section: 27, the locals, the instructions, 5.
fn judge_typed(
    rows: &[u16],
    shared: &[u16],
    codes: &[u16],
    work: &mut [u32],
    s: &[u8],
    types: u16,
    number: u64,
) -> Result<u64, Rejected>
    requires typing { Typing rows.now (both_codes shared.now codes.now) work.old s.now types number }
    requires ranged { Ranged rows.now (both_codes shared.now codes.now) }
    ensures { TypedJudged rows.now (both_codes shared.now codes.now) work.old work.new s.now types number result }
{
    let shape = type_table::shape_of(rows, shared, codes, number);
    match shape {
        Shape::Struct(_, _) => Err(Rejected {
            number: refusals::NOT_A_FUNCTION,
            place: Place::Plain(0),
        }),
        Shape::Func(first, n, second, m) => {
            let started = body_start::start(s, shared, codes, work, types, first, n);
            match started {
                Err(
                    Refused {
                        number: refusal,
                        at: place,
                    },
                ) => Err(Rejected {
                    number: refusal,
                    place: Place::Plain(place as u64),
                }),
                Ok((locals, next)) => {
                    let scene = Scene {
                        types: types,
                        locals: locals,
                        first: second,
                        results: m,
                    };
                    let ended = body_instructions::judge_all(
                        rows, shared, codes, work, scene, s, next,
                    );
                    finish(s, ended)
                }
            }
        }
    }
}

// The body's size, and then the body.
pub fn judge_sized(
    rows: &[u16],
    shared: &[u16],
    codes: &[u16],
    work: &mut [u32],
    s: &[u8],
    types: u16,
    number: u64,
) -> Result<u64, Rejected>
    requires sized { Sized rows.now (both_codes shared.now codes.now) work.old types number }
    requires ranged { Ranged rows.now (both_codes shared.now codes.now) }
    ensures { SizedJudged rows.now (both_codes shared.now codes.now) work.old work.new s.now types number result }
{
    if sizes::MOST_BYTES < s.len() {
        return Err(Rejected {
            number: refusals::OVERSIZE,
            place: Place::Plain(0),
        });
    }
    judge_typed(rows, shared, codes, work, s, types, number)
}
