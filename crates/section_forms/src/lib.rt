// Reading the forms of definitions into the lent table: lists of fields, parameters and results as codes.
#![tactic(auto)]

ghost use Rattle.std.specs.Prelude.{◌≡◌};
ghost use Rattle.section_forms.specs.Reads.{Room, code_at, itself, EntriesRead, FewRead, PartRead, struct_at, func_at};
ghost use Rattle.scope.specs.Sections.{form_at};
ghost use Rattle.type_read.specs.Codes.{coded_is};

use scope::{Read, Refused, refusals, sizes};

// The code of a field, or of a value type.
#[tactic(auto, using(crate::proofs::Lists::code_exits))]
fn code_at(s: &[u8], at: usize, fields: bool) -> Read<u64>
    ensures { result ≡ coded_is itself (code_at fields s.now at) }
{
    if fields {
        return type_read::field_at(s, at);
    }
    type_read::val_at(s, at)
}

// n entries of a list of at most 64, their codes put from `used` on.
#[tactic(auto, using(crate::proofs::Lists::list_exits), unfolding(scope::specs::Reading::entries))]
fn entries_at(s: &[u8], at: usize, n: u64, fields: bool, codes: &mut [u16], used: u64) -> Read<u64>
    requires { Room s.now codes.old at used }
    ensures { EntriesRead (code_at fields) n s.now at codes.old codes.new used result }
{
    let mut next = at;
    for count in 0..n {
        if sizes::MOST_EACH <= count {
            return Err(Refused {
                number: refusals::OVERSIZE,
                at: next,
            });
        }
        let (code, after) = code_at(s, next, fields)?;
        lent_u16::put(codes, used + count, code);
        next = after;
    }
    Ok((n, next))
}

// A list of at most 64: its count, then its entries.
#[tactic(auto, using(crate::proofs::Forms::few_exits), unfolding(scope::specs::Sections::few_at))]
fn few_at(s: &[u8], at: usize, fields: bool, codes: &mut [u16], used: u64) -> Read<u64>
    requires { Room s.now codes.old at used }
    ensures { FewRead (code_at fields) s.now at codes.old codes.new used result }
{
    let (n, next) = number::u32_at(s, at)?;
    entries_at(s, next, n, fields, codes, used)
}

// What a form says: how many fields, or how many parameters and results.
#[derive(Clone, Copy)]
pub enum Shape {
    Struct(u64),
    Func(u64, u64),
}

// 5F was read: a list of fields.
fn struct_at(s: &[u8], at: usize, codes: &mut [u16], used: u64) -> Read<Shape>
    requires { Room s.now codes.old at used }
    ensures { PartRead struct_at s.now at codes.old codes.new used result }
{
    let (n, next) = few_at(s, at, true, codes, used)?;
    Ok((Shape::Struct(n), next))
}

// 60 was read: parameters, then results.
#[tactic(auto, using(crate::proofs::Forms::func_exits))]
fn func_at(s: &[u8], at: usize, codes: &mut [u16], used: u64) -> Read<Shape>
    requires { Room s.now codes.old at used }
    ensures { PartRead func_at s.now at codes.old codes.new used result }
{
    let (n, next) = few_at(s, at, false, codes, used)?;
    let (m, end) = few_at(s, next, false, codes, used + n)?;
    Ok((Shape::Func(n, m), end))
}

// 5F and a list of fields, or 60 with parameters and results.
#[tactic(auto, using(crate::proofs::Forms::form_exits), unfolding(scope::specs::Sections::form_at))]
pub fn form_at(s: &[u8], at: usize, codes: &mut [u16], used: u64) -> Read<Shape>
    requires { Room s.now codes.old at used }
    ensures { PartRead form_at s.now at codes.old codes.new used result }
{
    let Some(b) = number_bytes::byte_at(s, at) else {
        return Err(Refused {
            number: refusals::BYTES_END,
            at,
        });
    };
    if b == 0x5F {
        return struct_at(s, at + 1, codes, used);
    }
    if b == 0x60 {
        return func_at(s, at + 1, codes, used);
    }
    Err(Refused {
        number: refusals::NOT_LISTED,
        at,
    })
}
