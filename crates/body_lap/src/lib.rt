// One instruction of a body by the general path, from and to the numbers of the quick path.
#![tactic(auto)]

ghost use Rattle.std.specs.Prelude.{◌≡◌};
ghost use Rattle.scope.specs.Memory.{flag};
ghost use Rattle.type_table.specs.View.{both_codes};
ghost use Rattle.type_hierarchy.specs.Ranged.{Ranged};
ghost use Rattle.body_progress.specs.Standing.{check_of};
ghost use Rattle.body_lap.specs.Laps.{Within, progress_of, Lapping, Lapped};

use body_progress::Progress;
use body_state::{Check, Scene};
use body_turn::Turn;

// What comes of instructions that are told, and of the one after them: a refusal's number and place; how many instructions there
// are, and the place after the last `end`; or how far the check has come then.
#[derive(Clone, Copy)]
pub enum Lap {
    Refused(u64, usize),
    Finished(u64, usize),
    On(Progress),
}

// Where the check stands, for the general path.
fn check_of(from: Progress) -> Check
    requires { Within from }
    ensures { result ≡ check_of from.depth from.base from.top from.dead }
{
    let depth = from.depth;
    let base = from.base;
    let top = from.top;
    let dead = from.dead;
    let height = top - base;
    Check {
        depth: depth as u16,
        base: base as u32,
        height: height as u32,
        dead: dead == 1,
    }
}

// 1 for yes.
fn number_of(yes: bool) -> u64
    ensures { result ≡ flag yes }
{
    if yes { 1 } else { 0 }
}

// And for the quick one.
fn progress_of(count: u64, check: Check, next: usize) -> Progress
    ensures { result ≡ progress_of count check next }
{
    let depth = check.depth as u64;
    let base = check.base as u64;
    let height = check.height as u64;
    let yes = check.dead;
    let dead = number_of(yes);
    let top = base + height;
    let place = next as u64;
    Progress {
        count: count,
        next: place,
        depth: depth,
        base: base,
        top: top,
        dead: dead,
    }
}

// One instruction by the general path.
pub fn lap_of(
    rows: &[u16],
    shared: &[u16],
    codes: &[u16],
    table: &[u8],
    work: &mut [u32],
    scene: Scene,
    s: &[u8],
    from: Progress,
) -> Lap
    requires lapping { Lapping table.now work.old scene s.now from }
    requires ranged { Ranged rows.now (both_codes shared.now codes.now) }
    ensures { let both = both_codes shared.now codes.now in
        Lapped rows.now both work.old work.new scene s.now from result }
{
    let check = check_of(from);
    let next = from.next;
    let place = next as usize;
    let count = from.count;
    let turn = body_turn::turn_at(rows, shared, codes, table, work, scene, check, s, place);
    let all = count + 1;
    match turn {
        Turn::Refused(number, fault) => Lap::Refused(number, fault),
        Turn::Finished(following) => Lap::Finished(all, following),
        Turn::On(later, following) => {
            let to = progress_of(all, later, following);
            Lap::On(to)
        }
    }
}
