// Reading what follows the code of a branching cast: flags, label, source and target.
#![tactic(auto)]

ghost use Rattle.std.specs.Prelude.{◌≡◌};
ghost use Rattle.scope.specs.Instructions.{cast_at};
ghost use Rattle.body_immediates.specs.Coding.{instruction_is};
ghost use Rattle.body_cast_immediates.specs.Casting.{cast_types_at, cast_is, casting_at};

use body_immediates::Instruction;
use scope::{Read, Refused, refusals};

// A branching cast's immediates: the label, the codes of the source and the target, and whether each may be null.
#[derive(Clone, Copy)]
pub struct Casting {
    pub label: u64,
    pub source_null: bool,
    pub source: u64,
    pub target_null: bool,
    pub target: u64,
}

// The label, the source and the target, after the flags.
#[tactic(auto, using(crate::proofs::Branching::cast_types_exits))]
fn cast_types_at(s: &[u8], at: usize, source_null: bool, target_null: bool) -> Read<Casting>
    ensures { result ≡ cast_is (cast_types_at source_null target_null s.now at) }
{
    let (label, from) = number::u32_at(s, at)?;
    let (source, to) = type_read::heap_at(s, from)?;
    let (target, next) = type_read::heap_at(s, to)?;
    let cast = Casting {
        label,
        source_null,
        source,
        target_null,
        target,
    };
    Ok((cast, next))
}

// "Flags 0 to 3 (bit 0 source null, bit 1 target null), label, source, target."
#[tactic(auto, using(crate::proofs::Branching::cast_exits))]
fn cast_at(s: &[u8], at: usize) -> Read<Casting>
    ensures { result ≡ cast_is (cast_at s.now at) }
{
    let Some(flags) = number_bytes::byte_at(s, at) else {
        return Err(Refused {
            number: refusals::BYTES_END,
            at,
        });
    };
    match flags {
        0 => cast_types_at(s, at + 1, false, false),
        1 => cast_types_at(s, at + 1, true, false),
        2 => cast_types_at(s, at + 1, false, true),
        3 => cast_types_at(s, at + 1, true, true),
        _ => Err(Refused {
            number: refusals::NOT_LISTED,
            at,
        }),
    }
}

// FB 18/19 br_on_cast (fail), 25/26 br_on_cast_desc_eq (fail).
#[tactic(auto, using(crate::proofs::Branching::casting_exits))]
pub fn casting_at(s: &[u8], at: usize, code: u64) -> Read<Instruction>
    ensures { result ≡ instruction_is (casting_at code s.now at) }
{
    let (cast, next) = cast_at(s, at)?;
    let Casting {
        label,
        source_null,
        source,
        target_null,
        target,
    } = cast;
    match code {
        0x18 => Ok((
            Instruction::BrOnCast(source_null, target_null, label, source, target),
            next,
        )),
        0x19 => Ok((
            Instruction::BrOnCastFail(source_null, target_null, label, source, target),
            next,
        )),
        0x25 => Ok((
            Instruction::BrOnCastDescEq(source_null, target_null, label, source, target),
            next,
        )),
        _ => Ok((
            Instruction::BrOnCastDescEqFail(source_null, target_null, label, source, target),
            next,
        )),
    }
}
