// The last point that a reading of a ring's column over all time hands out: the first one going backward from the cursor, so that no forward reading and no
// buffer is needed. Where the cursor's slot is handed out it is that slot's.
#![tactic(auto)]

ghost use Rattle.std.specs.Prelude.{◌≡◌, ◌<◌};
ghost use Rattle.ring.specs.Parts.{ring_of};
ghost use Rattle.figure_theory.specs.Back.{ring_last, slot_before, back_from};

// The end of all time: a slot with this stamp is never handed out.
pub const END_OF_TIME: u64 = 0xffff_ffff_ffff_ffff;

// The slot before a slot, round the ring.
fn slot_before(n: usize, slot: usize) -> usize
    requires { slot < n }
    ensures { (result ≡ slot_before n slot) × (result < n) }
{
    if slot == 0 {
        return n - 1;
    }
    slot - 1
}

// The first point going backward from a place.
fn back_from(slab: &ring::Slab, column: usize, place: model::Place) -> Option<model::Point>
    requires { (column < slab.now.series) × (place.slot < slab.now.slots) }
    ensures { result ≡ back_from slab.now.bytes.now column slab.now.slots place.slot place.left }
{
    let mut slot = place.slot;
    for _ in 0..place.left {
        let here = slot;
        slot = slot_before(slab.slots, here);
        let value = slab.cell(column, here);
        let nan = field::is_nan(value);
        if nan {
            continue;
        }
        let stamp = slab.stamp(here);
        if stamp < END_OF_TIME {
            return Some(model::Point { stamp, value });
        }
    }
    None
}

// The last point of a column over all time.
pub fn last_point(slab: &ring::Slab, column: usize, wrapped: bool) -> Option<model::Point>
    requires { column < slab.now.series }
    ensures { result ≡ ring_last (ring_of slab.now.bytes.now wrapped) column }
{
    let first = slab.first_place(wrapped);
    let cursor = slab.cursor();
    let place = model::Place {
        slot: cursor,
        left: first.left,
    };
    back_from(slab, column, place)
}
