// What comes after a step of a trial run: the next step, or the end of the run. Each step counts, the last one too.
#![tactic(auto)]

ghost use Rattle.std.specs.Prelude.{◌≡◌, ◌+◌};
ghost use Rattle.std.specs.Int.{w64};
ghost use Rattle.std.proofs.Common.{Fits};
ghost use Rattle.run_turn.specs.Turns.{turn_of};

use run_state::{Stage, Stepped};

// How it ended, where it then stands, and after how many steps. A trap has its number. Astray: no accepted body comes to it.
#[derive(Clone, Copy)]
pub enum Ending {
    Done(Stage, u64),
    Trapped(u64, Stage, u64),
    Spent(Stage, u64),
    Astray,
}

// On from that stage, with so many steps done; or over.
#[derive(Clone, Copy)]
pub enum Turn {
    On(Stage, u64),
    Over(Ending),
}

// After a step from that stage, with so many steps done before it.
pub fn turn_of(stepped: Stepped, stage: Stage, steps: u64) -> Turn
    requires { Fits w64 (steps + 1) }
    ensures { result ≡ turn_of stepped stage steps }
{
    let after = steps + 1;
    match stepped {
        Stepped::Astray => Turn::Over(Ending::Astray),
        Stepped::Traps(number) => Turn::Over(Ending::Trapped(number, stage, after)),
        Stepped::Ends(later) => Turn::Over(Ending::Done(later, after)),
        Stepped::Goes(later) => Turn::On(later, after),
    }
}
