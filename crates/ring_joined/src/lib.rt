// The stamps of some slots that stand side by side, joined by `|`: 0 where each of them is 0. A scan for a stamp asks once for eight slots, two instructions
// a slot in place of five.
#![tactic(auto)]

ghost use Rattle.std.specs.Prelude.{◌≡◌, not, ◌+◌, ◌≤◌, eqb};
ghost use Rattle.model.specs.Ring.{any_stamp};

// The stamps of four slots joined by `|`: 0 where each of them is 0.
fn four(slab: &ring::Slab, slot: usize) -> u64
    requires { slot + 4 ≤ slab.now.slots }
    ensures { not (eqb result 0) ≡ any_stamp slab.now.bytes.now slot 4 }
{
    let t0 = slab.stamp(slot);
    let t1 = slab.stamp(slot + 1);
    let t2 = slab.stamp(slot + 2);
    let t3 = slab.stamp(slot + 3);
    t0 | t1 | t2 | t3
}

// The stamps of eight slots.
pub fn eight(slab: &ring::Slab, slot: usize) -> u64
    requires { slot + 8 ≤ slab.now.slots }
    ensures { not (eqb result 0) ≡ any_stamp slab.now.bytes.now slot 8 }
{
    let low = four(slab, slot);
    let high = four(slab, slot + 4);
    low | high
}
