// The words of a frame, written: those that are its own, and those that say what stands around it.
#![tactic(auto)]

ghost use Rattle.std.specs.Prelude.{◌≡◌};
ghost use Rattle.scope.specs.Memory.{flag};
ghost use Rattle.body_state.specs.Layout.{loop_word, result_word, base_word, height_word, dead_word, stamp_word};
ghost use Rattle.body_frame_words.specs.FrameWords.{FrameRoom, ThreePut};

// 1 for true.
fn flag_of(b: bool) -> u64
    ensures { result ≡ flag b }
{
    if b { 1 } else { 0 }
}

// The words of frame m that are its own: whether it is a loop, its result, its stamp.
pub fn put_own(work: &mut [u32], m: u32, is_loop: bool, res: u32, stamp: u32)
    requires { FrameRoom work.old m }
    ensures { ThreePut work.old work.new m loop_word result_word stamp_word (flag is_loop) res stamp }
{
    let row = body_state::FRAMES + body_state::FRAME * m as u64;
    let kind = flag_of(is_loop);
    lent_u32::put32(work, row + body_state::LOOP as u64, kind);
    lent_u32::put32(work, row + body_state::RESULT as u64, res as u64);
    lent_u32::put32(work, row + body_state::STAMP as u64, stamp as u64);
}

// The words of frame m that say what stands around it: the operands below, how many there are, whether they may be unknown.
pub fn put_around(work: &mut [u32], m: u32, base: u32, height: u32, dead: bool)
    requires { FrameRoom work.old m }
    ensures { ThreePut work.old work.new m base_word height_word dead_word base height (flag dead) }
{
    let row = body_state::FRAMES + body_state::FRAME * m as u64;
    let unknowns = flag_of(dead);
    lent_u32::put32(work, row + body_state::BASE as u64, base as u64);
    lent_u32::put32(work, row + body_state::HEIGHT as u64, height as u64);
    lent_u32::put32(work, row + body_state::DEAD as u64, unknowns);
}
