// Locals, written: one is set in a frame, and forgotten with it.
#![tactic(auto)]

ghost use Rattle.type_table.specs.View.{link_at};
ghost use Rattle.body_marks.specs.Marks.{Ready, Marked};

// Sets a local in frame m: 0 is none, else one more than its number. What is set already stays as it is: it was set in a
// frame that is still open.
pub fn mark(work: &mut [u32], locals: u16, m: u32, marks: u64)
    requires { Ready work.old locals m }
    ensures { Marked work.old work.new locals m (link_at marks) }
{
    if marks == 0 {
        return;
    }
    let x = marks - 1;
    if locals as u64 <= x {
        return;
    }
    if body_state::is_set(work, m, x as u32) {
        return;
    }
    let stamp = body_state::frame_word(work, m, body_state::STAMP);
    lent_u32::put32(work, body_state::MARKS + x, m as u64);
    lent_u32::put32(work, body_state::STAMPS + x, stamp);
}
