// What a trial run leaves: where it stands at its end, how it ended in the words of the answer, and scratch that is zero.
#![tactic(auto)]

ghost use Rattle.std.specs.Prelude.{◌≡◌};
ghost use Rattle.run_turn.specs.Endings.{stage_of};
ghost use Rattle.run_ending.specs.Telling.{tell_of};
ghost use Rattle.run_ending.specs.Wiping.{ScratchCleared};

use run_state::Stage;
use run_turn::Ending;
use scope::Ran;

// Where the run stands at its end.
pub fn stage_of(ended: Ending, first: usize) -> Stage
    ensures { result ≡ stage_of first ended }
{
    match ended {
        Ending::Done(stage, _) => stage,
        Ending::Trapped(_, stage, _) => stage,
        Ending::Spent(stage, _) => stage,
        Ending::Astray => Stage {
            place: first,
            objects: 0,
            cells: 0,
            base: 0,
            height: 0,
            depth: 0,
        },
    }
}

// How it ended. No accepted body goes astray; 0 is no trap's number.
pub fn tell(ended: Ending, first: usize) -> Ran
    ensures { result ≡ tell_of first ended }
{
    match ended {
        Ending::Done(stage, steps) => {
            let results = stage.height;
            Ran::Done(steps, results as u64)
        }
        Ending::Trapped(number, stage, steps) => {
            let place = stage.place;
            Ran::Trapped(number, place as u64, steps)
        }
        Ending::Spent(_, steps) => Ran::Spent(steps),
        Ending::Astray => Ran::Trapped(0, first as u64, 0),
    }
}

// Zero in every word of the scratch.
pub fn clear_scratch(
    rows: &mut [u16],
    shared: &mut [u16],
    codes: &mut [u16],
    used: &mut [u32],
    ends: &mut [u16],
)
    ensures { let rows' = rows.new in let shared' = shared.new in let codes' = codes.new in let work' = used.new in
        let ends' = ends.new in
        ScratchCleared rows.old shared.old codes.old used.old ends.old rows' shared' codes' work' ends' }
{
    lent_u16::wipe(rows);
    lent_u16::wipe(shared);
    lent_u16::wipe(codes);
    lent_u32::wipe32(used);
    lent_u16::wipe(ends);
}
