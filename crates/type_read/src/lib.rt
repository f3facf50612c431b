// Reading heap types, value types and fields. A type is answered by its code (scope's Memory.antt), a type number that
// names no type as type_table's Kept.antt keeps it.
#![tactic(auto)]

ghost use Rattle.std.specs.Prelude.{◌≡◌};
ghost use Rattle.scope.specs.Sections.{heap_at, val_at, flag_at, field_at, number_of};
ghost use Rattle.scope.specs.Memory.{flag};
ghost use Rattle.type_table.specs.Kept.{kept};
ghost use Rattle.type_read.specs.Codes.{coded_is, heap_code_kept, val_code_kept, field_code_kept, exact_at, defined_at, number_is, referent_at, reference_at};

use number_values::Integer;
use scope::{Read, Refused, refusals};

// A type number as the table keeps it.
pub fn kept_number(x: u64) -> u64
    ensures { result ≡ kept x }
{
    if x < type_table::BEYOND {
        x
    } else {
        type_table::BEYOND
    }
}

// 62 was read: the number of an exact type.
fn exact_at(s: &[u8], at: usize) -> Read<u64>
    ensures { result ≡ coded_is heap_code_kept (exact_at s.now at) }
{
    let (x, next) = number::u32_at(s, at)?;
    Ok((11 + 2 * kept_number(x), next))
}

// A type number as a non-negative s33.
fn defined_at(s: &[u8], at: usize) -> Read<u64>
    ensures { result ≡ coded_is heap_code_kept (defined_at s.now at) }
{
    let read = number::s33_at(s, at);
    match read {
        Integer::Plus(x, next) => Ok((10 + 2 * kept_number(x), next)),
        Integer::Minus(_, _) => Err(Refused {
            number: refusals::NOT_LISTED,
            at,
        }),
        Integer::Refused(n, place) => Err(Refused {
            number: n,
            at: place,
        }),
    }
}

pub fn heap_at(s: &[u8], at: usize) -> Read<u64>
    ensures { result ≡ coded_is heap_code_kept (heap_at s.now at) }
{
    let first = number_bytes::byte_at(s, at);
    let Some(b) = first else {
        return Err(Refused {
            number: refusals::BYTES_END,
            at,
        });
    };
    if b == 0x62 {
        return exact_at(s, at + 1);
    }
    let named = type_abstract::abstract_of(b);
    let Some(a) = named else {
        return defined_at(s, at);
    };
    Ok((a, at + 1))
}

fn number_of(b: u64) -> Option<u64>
    ensures { result ≡ number_is (number_of b) }
{
    match b {
        0x7F => Some(0),
        0x7E => Some(1),
        0x7D => Some(2),
        0x7C => Some(3),
        _ => None,
    }
}

// 63 or 64 was read: the heap type of a reference.
fn referent_at(s: &[u8], at: usize, nullable: bool) -> Read<u64>
    ensures { result ≡ coded_is val_code_kept (referent_at nullable s.now at) }
{
    let (code, next) = heap_at(s, at)?;
    if nullable {
        return Ok((5 + 2 * code, next));
    }
    Ok((4 + 2 * code, next))
}

// What a first byte b at `at` that is no number's begins: a reference, whose heap type is read at `next`, or an abstract
// code alone, which is its nullable reference.
fn reference_at(s: &[u8], at: usize, b: u64, next: usize) -> Read<u64>
    ensures { result ≡ coded_is val_code_kept (reference_at b s.now at next) }
{
    if b == 0x63 {
        return referent_at(s, next, true);
    }
    if b == 0x64 {
        return referent_at(s, next, false);
    }
    let named = type_abstract::abstract_of(b);
    let Some(a) = named else {
        return Err(Refused {
            number: refusals::NOT_LISTED,
            at,
        });
    };
    Ok((5 + 2 * a, next))
}

pub fn val_at(s: &[u8], at: usize) -> Read<u64>
    ensures { result ≡ coded_is val_code_kept (val_at s.now at) }
{
    let first = number_bytes::byte_at(s, at);
    let Some(b) = first else {
        return Err(Refused {
            number: refusals::BYTES_END,
            at,
        });
    };
    let named = number_of(b);
    let Some(n) = named else {
        return reference_at(s, at, b, at + 1);
    };
    Ok((n, at + 1))
}

// 00 fixed or 01 mutable, as 0 or 1.
fn flag_at(s: &[u8], at: usize) -> Read<u64>
    ensures { result ≡ coded_is flag (flag_at s.now at) }
{
    let first = number_bytes::byte_at(s, at);
    let Some(b) = first else {
        return Err(Refused {
            number: refusals::BYTES_END,
            at,
        });
    };
    if b == 0 {
        return Ok((0, at + 1));
    }
    if b == 1 {
        return Ok((1, at + 1));
    }
    Err(Refused {
        number: refusals::NOT_LISTED,
        at,
    })
}

pub fn field_at(s: &[u8], at: usize) -> Read<u64>
    ensures { result ≡ coded_is field_code_kept (field_at s.now at) }
{
    let (code, next) = val_at(s, at)?;
    let (bit, end) = flag_at(s, next)?;
    Ok((2 * code + bit, end))
}
