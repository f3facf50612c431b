// The answers of the loader's public calls, as document 01 has them. specs/Answers.antt gives the paper's number and
// values for each case.
#![tactic(auto)]

pub mod refusals;
pub mod sizes;
pub mod traps;

// Why a reader stopped: the refusal's number, and the place of what is at fault.
#[derive(Clone, Copy)]
pub struct Refused {
    pub number: u64,
    pub at: usize,
}

// What a reader answers: a value and the place after its bytes, or why there is none.
pub type Read<T> = Result<(T, usize), Refused>;

// Where a refusal lies: a byte of the library, a byte of the add-on's own input, or a place with no input to name: a type
// number, a place in a body, or 0.
#[derive(Clone, Copy)]
pub enum Place {
    Library(u64),
    Addon(u64),
    Plain(u64),
}

// Why sections or a body are judged with no: the refusal's number and place.
#[derive(Clone, Copy)]
pub struct Rejected {
    pub number: u64,
    pub place: Place,
}

// Asking for a type: where the definition's bytes begin and end in the library, or in the add-on's section; or the refusal.
#[derive(Clone, Copy)]
pub enum Asked {
    Library(u64, u64),
    Addon(u64, u64),
    Refused(u64, Place),
}

// A trial run: done after so many steps with so many results; a trap's number, its place and the steps; spent after so
// many steps; or the refusal.
#[derive(Clone, Copy)]
pub enum Ran {
    Done(u64, u64),
    Trapped(u64, u64, u64),
    Spent(u64),
    Refused(u64, Place),
}
