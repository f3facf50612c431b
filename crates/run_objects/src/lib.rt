// The objects of a run in lent memory: four words each (type; descriptor, 0 none, else one more than its number; first cell; how
// many cells), and cells, which are values. Each answer is what the words say (specs/Objects.antt).
#![tactic(auto)]

ghost use Rattle.std.specs.Prelude.{◌+◌, ◌*◌};
ghost use Rattle.scope.specs.Layout.{object_span};
ghost use Rattle.lent_u16.specs.Words.{WordAt};
ghost use Rattle.run_objects.specs.Objects.{TypeOf, DescriptorOf, FieldCount, HeldField, FieldSet};

use run_value::Value;
use run_values::layout;
use scope::sizes;

// A word of an object.
fn object_word(objects: &[u16], o: u32, k: u8) -> u64
    ensures { WordAt objects.now (object_span * o + k) result }
{
    lent_u16::word(objects, sizes::OBJECT * o as u64 + k as u64)
}

// The type as which it was made.
#[tactic(auto, using(crate::proofs::Asked::ask_exits))]
pub fn type_of(objects: &[u16], o: u32) -> u64
    ensures { TypeOf objects.now o result }
{
    object_word(objects, o, layout::TYPE)
}

// The number of its descriptor object.
#[tactic(auto, using(crate::proofs::Asked::ask_exits))]
pub fn descriptor_of(objects: &[u16], o: u32) -> Option<u64>
    ensures { DescriptorOf objects.now o result }
{
    let w = object_word(objects, o, layout::DESCRIPTOR);
    if w == 0 {
        return None;
    }
    Some(w - 1)
}

// How many fields it has.
#[tactic(auto, using(crate::proofs::Asked::ask_exits))]
pub fn field_count(objects: &[u16], o: u32) -> u64
    ensures { FieldCount objects.now o result }
{
    object_word(objects, o, layout::COUNT)
}

// What its field i holds.
#[tactic(auto, using(crate::proofs::Asked::ask_exits))]
pub fn held_field(objects: &[u16], cells: &[u64], o: u32, i: u64) -> Option<Value>
    ensures { HeldField objects.now cells.now o i result }
{
    let count = object_word(objects, o, layout::COUNT);
    if count <= i {
        return None;
    }
    let first = object_word(objects, o, layout::FIRST);
    let place = sizes::VALUE * (first + i);
    let kind = run_values::word64(cells, place);
    let bits = run_values::word64(cells, place + 1);
    let v = run_value::value_of(kind, bits);
    Some(v)
}

// Another value in its field i.
#[tactic(auto, using(crate::proofs::Asked::ask_exits))]
pub fn set_field(objects: &[u16], cells: &mut [u64], o: u32, i: u32, v: Value)
    ensures { FieldSet objects.now cells.old cells.new o i v }
{
    let first = object_word(objects, o, layout::FIRST);
    let place = (first + i as u64) % layout::NUMBER_LIMIT;
    run_value::put(cells, place as u32, v);
}
