// Whether a value passes a cast, by type or by descriptor, and the move that is chosen by it: one where it passes, another
// where it does not.
#![tactic(auto)]

ghost use Rattle.std.specs.Prelude.{◌≡◌};
ghost use Rattle.run_passing.specs.Passes.{PassesAs, PassesDescriptorAs, chosen_of, CastChosen, DescriptorChosen};
ghost use Rattle.type_table.specs.View.{both_codes};
ghost use Rattle.type_hierarchy.specs.Ranged.{Ranged};

use run_state::{Move, Reference};
use run_value::Value;
use scope::traps;

// Null passes where the target may be null, an object by the type it was made as.
#[tactic(auto, using(crate::proofs::Passings::passing_exits))]
fn passes_cast(
    rows: &[u16],
    shared: &[u16],
    codes: &[u16],
    objects: &[u16],
    n: u32,
    top: Option<Value>,
    null: bool,
    h: u64,
) -> Option<bool>
    requires { Ranged rows.now (both_codes shared.now codes.now) }
    ensures { PassesAs rows.now (both_codes shared.now codes.now) objects.now n top null h result }
{
    let reference = run_state::reference_of(top);
    match reference {
        Reference::Wrong => None,
        Reference::Null => Some(null),
        Reference::To(o) => {
            if n as u64 <= o {
                return None;
            }
            let made = run_objects::type_of(objects, o as u32);
            let below = type_order::heap_below(rows, shared, codes, 11 + 2 * made, h);
            Some(below)
        }
    }
}

// "ref.cast_desc_eq passes when the object's descriptor is the very object given, or on null with a nullable target."
#[tactic(auto, using(crate::proofs::Passings::passing_exits))]
fn passes_descriptor(
    objects: &[u16],
    n: u32,
    top: Option<Value>,
    null: bool,
    d: u64,
) -> Option<bool>
    ensures { PassesDescriptorAs objects.now n top null d result }
{
    let reference = run_state::reference_of(top);
    match reference {
        Reference::Wrong => None,
        Reference::Null => Some(null),
        Reference::To(o) => {
            if n as u64 <= o {
                return None;
            }
            let link = run_objects::descriptor_of(objects, o as u32);
            match link {
                None => Some(false),
                Some(e) => Some(e == d),
            }
        }
    }
}

// The move by whether the value passes.
fn chosen(passes: Option<bool>, yes: Move, no: Move) -> Move
    ensures { result ≡ chosen_of passes yes no }
{
    match passes {
        None => Move::Astray,
        Some(so) => { if so { yes } else { no } }
    }
}

// A cast of the topmost operand to the heap type with the code h, nullable or not.
#[tactic(auto, using(crate::proofs::Choices::chosen_exits))]
pub fn move_by_type(
    rows: &[u16],
    shared: &[u16],
    codes: &[u16],
    objects: &[u16],
    n: u32,
    first: Option<Value>,
    null: bool,
    h: u64,
    yes: Move,
    no: Move,
) -> Move
    requires { Ranged rows.now (both_codes shared.now codes.now) }
    ensures { CastChosen rows.now (both_codes shared.now codes.now) objects.now n first null h yes no result }
{
    let passes = passes_cast(rows, shared, codes, objects, n, first, null, h);
    chosen(passes, yes, no)
}

// A cast of the operand under the topmost, which is the descriptor: that is looked at first.
#[tactic(auto, using(crate::proofs::Choices::chosen_exits))]
pub fn move_by_descriptor(
    objects: &[u16],
    n: u32,
    first: Option<Value>,
    second: Option<Value>,
    null: bool,
    yes: Move,
    no: Move,
) -> Move
    ensures { DescriptorChosen objects.now n first second null yes no result }
{
    let descriptor = run_state::reference_of(first);
    match descriptor {
        Reference::Wrong => Move::Astray,
        Reference::Null => Move::Traps(traps::NULL_DESCRIPTOR),
        Reference::To(d) => {
            let passes = passes_descriptor(objects, n, second, null, d);
            chosen(passes, yes, no)
        }
    }
}
