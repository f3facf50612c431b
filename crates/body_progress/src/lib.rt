// How far a body's check has come, in the numbers of the quick path; and what is still to be judged from there, with the
// instructions before it counted. No function: the quick path, the general one and the loop over both share it.

// How many instructions were judged, the place of the next one; how many blocks are open, the operands below the innermost frame
// and in all frames, and 1 where unknowns lie below those of the frame.
#![tactic(auto)]

#[derive(Clone, Copy)]
pub struct Progress {
    pub count: u64,
    pub next: u64,
    pub depth: u64,
    pub base: u64,
    pub top: u64,
    pub dead: u64,
}
