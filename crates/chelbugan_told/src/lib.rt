// What a host is told of an answer: the number that a call returns, and the answer's values in four lent words, of which the
// fourth is 0. The loader, the checker and the run answer by enums, which have no form in C.
#![tactic(auto)]

ghost use Rattle.chelbugan_told.specs.Values.{RefusalTold, VerdictTold, AskedTold, RanTold};

use scope::{Asked, Place, Ran, Rejected};

// What an answer is: the number that each call returns.
const NO: u64 = 0;

const YES: u64 = 1;

// A run has three ways of yes.
const DONE: u64 = 1;

const TRAP: u64 = 2;

const SPENT: u64 = 3;

// The input in which a place lies: none, the library or the add-on.
const NO_INPUT: u64 = 0;

const LIBRARY: u64 = 1;

const ADDON: u64 = 2;

// A refusal: no with its number, its place, and the input in which that lies.
fn tell_refusal(number: u64, place: Place, answer: &mut [u64; 4]) -> u64
    ensures { RefusalTold number place result answer.new }
{
    match place {
        Place::Library(at) => {
            *answer = [number, at, LIBRARY, 0];
            NO
        }
        Place::Addon(at) => {
            *answer = [number, at, ADDON, 0];
            NO
        }
        Place::Plain(at) => {
            *answer = [number, at, NO_INPUT, 0];
            NO
        }
    }
}

// A verdict: yes with a count, or the refusal.
pub fn tell_verdict(verdict: Result<u64, Rejected>, answer: &mut [u64; 4]) -> u64
    ensures { VerdictTold verdict result answer.new }
{
    match verdict {
        Ok(count) => {
            *answer = [count, 0, 0, 0];
            YES
        }
        Err(Rejected { number, place }) => tell_refusal(number, place, answer),
    }
}

// Where a type's bytes lie: yes with the two places and the input that holds them, or the refusal.
pub fn tell_asked(asked: Asked, answer: &mut [u64; 4]) -> u64
    ensures { AskedTold asked result answer.new }
{
    match asked {
        Asked::Library(from, to) => {
            *answer = [from, to, LIBRARY, 0];
            YES
        }
        Asked::Addon(from, to) => {
            *answer = [from, to, ADDON, 0];
            YES
        }
        Asked::Refused(number, place) => tell_refusal(number, place, answer),
    }
}

// How a run ended: done with steps and results, a trap with its number, place and steps, or spent with steps; or the refusal.
pub fn tell_ran(ran: Ran, answer: &mut [u64; 4]) -> u64
    ensures { RanTold ran result answer.new }
{
    match ran {
        Ran::Done(steps, results) => {
            *answer = [steps, results, 0, 0];
            DONE
        }
        Ran::Trapped(trap, place, steps) => {
            *answer = [trap, place, steps, 0];
            TRAP
        }
        Ran::Spent(steps) => {
            *answer = [steps, 0, 0, 0];
            SPENT
        }
        Ran::Refused(number, place) => tell_refusal(number, place, answer),
    }
}
