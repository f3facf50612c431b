// The instructions of a body, one after the other up to the last `end`: the first faulty one is the answer. Those that are plain
// to see are told by body_quick, one after the other; what it does not tell is read and judged by body_lap.
#![tactic(auto)]

ghost use Rattle.type_table.specs.View.{both_codes};
ghost use Rattle.type_hierarchy.specs.Ranged.{Ranged};
ghost use Rattle.body_loop.specs.Loop.{Ready, JudgedFrom};
ghost use Rattle.body_lap.specs.Laps.{Lapping, Lapped};

use body_lap::Lap;
use body_progress::Progress;
use body_state::Scene;
use scope::{Read, Refused, refusals};

// Instructions that are told, one after the other, then one by the general path.
fn go_round(
    rows: &[u16],
    shared: &[u16],
    codes: &[u16],
    table: &[u8],
    work: &mut [u32],
    scene: Scene,
    s: &[u8],
    state: Progress,
) -> Lap
    requires lapping { Lapping table.now work.old scene s.now state }
    requires ranged { Ranged rows.now (both_codes shared.now codes.now) }
    ensures { let both = both_codes shared.now codes.now in
        Lapped rows.now both work.old work.new scene s.now state result }
{
    let told = body_quick::go_on(s, rows, shared, codes, table, work, scene, state);
    body_lap::lap_of(rows, shared, codes, table, work, scene, s, told)
}

// There are no more instructions than bytes, so no more laps.
pub fn judge_from(
    rows: &[u16],
    shared: &[u16],
    codes: &[u16],
    table: &[u8],
    work: &mut [u32],
    scene: Scene,
    s: &[u8],
    at: usize,
) -> Read<u64>
    requires ready { Ready table.now work.old scene s.now at }
    requires ranged { Ranged rows.now (both_codes shared.now codes.now) }
    ensures { JudgedFrom rows.now (both_codes shared.now codes.now) work.old work.new scene s.now at result }
{
    let mut state = Progress {
        count: 0,
        next: at as u64,
        depth: 0,
        base: 0,
        top: 0,
        dead: 0,
    };
    for _ in 0..s.len() {
        match go_round(rows, shared, codes, table, work, scene, s, state) {
            Lap::Refused(number, fault) => {
                return Err(Refused { number, at: fault });
            }
            Lap::Finished(count, following) => {
                return Ok((count, following));
            }
            Lap::On(later) => {
                state = later;
            }
        }
    }
    Err(Refused {
        number: refusals::BYTES_END,
        at: state.next as usize,
    })
}
