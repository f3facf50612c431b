// One more object of a run's heap: whether there is room for it, and its words. Its cells are filled by run_cells.
#![tactic(auto)]

ghost use Rattle.std.specs.Prelude.{◌≡◌, ◌+◌, ◌*◌, set};
ghost use Rattle.scope.specs.Layout.{object_span};
ghost use Rattle.run_heap.specs.Heap.{with_row, RoomFor};

use run_values::layout;
use scope::sizes;

// Whether there is room for one more object with so many fields: "45 exactly when 1,024 objects exist or fewer than the
// needed cells are left of 4,096".
#[tactic(auto, using(crate::proofs::Room::room_exits))]
pub fn room_for(n: u32, total: u32, need: u32) -> bool
    ensures { RoomFor n total need result }
{
    if sizes::MOST_OBJECTS <= n as u64 {
        return false;
    }
    total as u64 + need as u64 <= sizes::MOST_CELLS
}

// Two words of object n, from word k on.
fn put_words(objects: &mut [u16], n: u32, k: u8, a: u16, b: u16)
    ensures { objects.new ≡ set (set objects.old (object_span * n + k) a) (object_span * n + (k + 1)) b }
{
    lent_u16::put(objects, sizes::OBJECT * n as u64 + k as u64, a as u64);
    lent_u16::put(objects, sizes::OBJECT * n as u64 + (k as u64 + 1), b as u64);
}

// The words of object n.
#[tactic(auto, unfolding(crate::specs::Heap::with_row))]
pub fn put_object(objects: &mut [u16], n: u32, x: u16, descriptor: u16, first: u16, count: u16)
    ensures { objects.new ≡ with_row objects.old n x descriptor first count }
{
    put_words(objects, n, layout::TYPE, x, descriptor);
    put_words(objects, n, layout::FIRST, first, count);
}
