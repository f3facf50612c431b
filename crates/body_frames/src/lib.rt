// Frames, written: a block is opened.
#![tactic(auto)]

ghost use Rattle.std.specs.Prelude.{◌≡◌, map};
ghost use Rattle.scope.specs.Lists.{joined};
ghost use Rattle.scope.specs.TypeRules.{val_names};
ghost use Rattle.type_reach.specs.Names.{all_below};
ghost use Rattle.body_decoded.specs.Decoded.{block_results};
ghost use Rattle.body_frames.specs.Frames.{Entering, Entered, Opening, Opened};

use body_state::{Check, Scene, Step};
use scope::{refusals, sizes};

// "64 frames, the function's own counted": by the type of a depth.
const MOST_BLOCKS: u16 = sizes::MOST_BLOCKS as u16;

// Whether a block's result names types of the section only: 0 is none, else one more than its code.
fn result_reached(types: u16, res: u64) -> bool
    ensures { result ≡ all_below types (joined (map val_names (block_results res))) }
{
    if res == 0 {
        return true;
    }
    type_reach::val_in_reach(res - 1, types as u64)
}

// The frame is written, and the check stands in it.
pub fn enter(work: &mut [u32], check: Check, is_loop: bool, res: u32, at: u32) -> Check
    requires { Entering work.old check }
    ensures { Entered work.old work.new check is_loop res at result }
{
    let depth = check.depth;
    let base = check.base;
    let height = check.height;
    let dead = check.dead;
    let m = depth as u32 + 2;
    body_frame_words::put_own(work, m, is_loop, res, at);
    body_frame_words::put_around(work, m, base, height, dead);
    Check {
        depth: depth + 1,
        base: base + height,
        height: 0,
        dead: false,
    }
}

// Opens a block, or a loop, at the place `at`: 6, then 4. "A block opened after unreachable starts empty and strict."
pub fn open(work: &mut [u32], scene: Scene, check: Check, is_loop: bool, res: u64, at: u64) -> Step
    requires { Opening work.old scene.locals check at }
    ensures { Opened work.old work.new scene check is_loop res at result }
{
    let types = scene.types;
    let reached = result_reached(types, res);
    if !reached {
        return Step::Fault(refusals::OUT_OF_REACH);
    }
    let depth = check.depth;
    if MOST_BLOCKS <= depth {
        return Step::Fault(refusals::OVERSIZE);
    }
    let inner = enter(work, check, is_loop, res as u32, at as u32);
    Step::On(inner)
}
