// The ends of a ring: newest is the stamp at the cursor, oldest the first nonzero stamp in reading order (Rust's `newest_timestamp` and `oldest_timestamp`
// of ring.rs); and what of a range a ring with these ends covers (`analyze_coverage` of query.rs).
#![tactic(auto)]

ghost use Rattle.std.specs.Prelude.{◌≡◌, ◌<◌};
ghost use Rattle.model.specs.Ring.{end_of, first_stamp, walk, oldest, newest};
ghost use Rattle.model.specs.Read.{full, incomplete, both_ends};
ghost use Rattle.ring.specs.Parts.{ring_of};

// A stamp as an end: 0 is none.
fn end_of(stamp: u64) -> Option<u64>
    ensures { result ≡ end_of stamp }
{
    if stamp == 0 {
        return None;
    }
    Some(stamp)
}

// A place from which on the first nonzero stamp is the same: empty slots are passed over eight at a time, as far as eight stand side by side.
fn past_empty(slab: &ring::Slab, place: model::Place) -> model::Place
    requires { place.slot < slab.now.slots }
    ensures { (result.slot < slab.now.slots) × (first_stamp slab.now.bytes.now (walk slab.now.slots result.slot result.left) ≡ first_stamp slab.now.bytes.now (walk slab.now.slots place.slot place.left)) }
{
    // A `while`: its step is eight slots, and the slots left are handed out.
    let mut slot = place.slot;
    let mut left = place.left;
    while 8 <= left {
        if slab.slots < slot + 8 {
            break;
        }
        let eight = ring_joined::eight(slab, slot);
        if eight != 0 {
            break;
        }
        slot = ring::next_slot(slab.slots, slot + 7);
        left -= 8;
    }
    model::Place { slot, left }
}

// The first nonzero stamp from a place on, or 0: a slot at a time.
fn first_stamp(slab: &ring::Slab, place: model::Place) -> u64
    requires { place.slot < slab.now.slots }
    ensures { result ≡ first_stamp slab.now.bytes.now (walk slab.now.slots place.slot place.left) }
{
    let mut slot = place.slot;
    for _ in 0..place.left {
        let stamp = slab.stamp(slot);
        if stamp != 0 {
            return stamp;
        }
        slot = ring::next_slot(slab.slots, slot);
    }
    0
}

// The same. The first slot alone, then eight at a time: most rings have no empty slot there.
fn oldest_stamp(slab: &ring::Slab, place: model::Place) -> u64
    requires { place.slot < slab.now.slots }
    ensures { result ≡ first_stamp slab.now.bytes.now (walk slab.now.slots place.slot place.left) }
{
    let slot = place.slot;
    let left = place.left;
    if 0 < left {
        let stamp = slab.stamp(slot);
        if stamp != 0 {
            return stamp;
        }
    }
    let behind = past_empty(slab, place);
    first_stamp(slab, behind)
}

// The oldest stamp.
pub fn oldest(slab: &ring::Slab, wrapped: bool) -> Option<u64>
    ensures { result ≡ oldest (ring_of slab.now.bytes.now wrapped) }
{
    let place = slab.first_place(wrapped);
    let stamp = oldest_stamp(slab, place);
    end_of(stamp)
}

// The newest stamp.
pub fn newest(slab: &ring::Slab, wrapped: bool) -> Option<u64>
    ensures { result ≡ newest (ring_of slab.now.bytes.now wrapped) }
{
    let cursor = slab.cursor();
    let stamp = slab.stamp(cursor);
    end_of(stamp)
}

// The range is covered in full.
pub fn is_full(oldest: Option<u64>, newest: Option<u64>, start: u64, end: u64) -> bool
    ensures { result ≡ full oldest newest start end }
{
    let Some(o) = oldest else {
        return false;
    };
    let Some(n) = newest else {
        return false;
    };
    if start < o {
        return false;
    }
    end <= n
}

// The incomplete mark.
pub fn is_incomplete(oldest: Option<u64>, newest: Option<u64>, start: u64, end: u64) -> bool
    ensures { result ≡ incomplete oldest newest start end }
{
    let Some(o) = oldest else {
        return true;
    };
    let Some(_) = newest else {
        return true;
    };
    start < o
}

// Neither end is missing.
pub fn has_both(oldest: Option<u64>, newest: Option<u64>) -> bool
    ensures { result ≡ both_ends oldest newest }
{
    let Some(_) = oldest else {
        return false;
    };
    let Some(_) = newest else {
        return false;
    };
    true
}
