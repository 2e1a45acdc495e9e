// A source whose windows never fall in reading order, met window by window: the slots before a limit are passed over, and the slots of one window are a run.
// `specs/Rest.antt` has the laws: such runs are the windows that the search finds, in its order, and a run has all that its window has. `next_strand` finds the
// greatest part of a range that is such a source (`specs/Strand.antt`).
#![tactic(auto)]

ghost use Rattle.std.specs.Prelude.{◌≡◌, ◌+◌, ◌%◌, ◌<◌, ◌≤◌};
ghost use Rattle.window.specs.Parts.{Readable, job_in};
ghost use Rattle.model.specs.Ring.{walk};
ghost use Rattle.window_runs.specs.Parts.{in_range, is_from, Skipped, Ran};
ghost use Rattle.window_theory.specs.Cut.{onward};
ghost use Rattle.window_runs.specs.Strand.{Edged, Trimmed, Stranded};

// The place of the rest behind slots passed over, and how many slots are left behind the last of those in the range.
#[derive(Clone, Copy)]
struct Skipping {
    rest: model::Place,
    last: usize,
}

// A window, the slots that have it, and the place of the rest: between them are slots that are not in the range.
#[derive(Clone, Copy)]
pub struct Run {
    pub window: u64,
    pub run: model::Place,
    pub rest: model::Place,
}

// A stamp in the range.
fn in_range(start: u64, end: u64, stamp: u64) -> bool
    ensures { result ≡ in_range start end stamp }
{
    start <= stamp && stamp < end
}

// A stamp in the range, not below window + width.
fn is_from(q: window::Reading, window: u64, width: u64, stamp: u64) -> bool
    ensures { result ≡ is_from q.start q.end (window + width) stamp }
{
    let inside = in_range(q.start, q.end, stamp);
    if !inside {
        return false;
    }
    if stamp < window {
        return false;
    }
    width <= stamp - window
}

// The slots before the first whose stamp lies in the range and not below window + width, passed over.
fn skip(slab: &[u8], q: window::Reading, window: u64, width: u64, place: model::Place) -> Skipping
    requires readable { Readable slab.now q }
    requires slot_lt_slots { place.slot < q.slots }
    ensures { Skipped (job_in slab.now q) q.slots (window + width) place result }
{
    // The next slot is taken in both branches: taken once, at the head, a run over 36,000 slots takes 4,588,525 instructions, and 4,399,546 so.
    let source = window::source_of(slab, q);
    let mut slot = place.slot;
    let mut last = place.left;
    for left in (0..place.left).rev() {
        let t = source.stamp(slot);
        let inside = in_range(q.start, q.end, t);
        if !inside {
            slot = ring::next_slot(q.slots, slot);
            continue;
        }
        let found = is_from(q, window, width, t);
        if found {
            let rest = model::Place {
                slot,
                left: left + 1,
            };
            return Skipping { rest, last };
        }
        slot = ring::next_slot(q.slots, slot);
        last = left;
    }
    let rest = model::Place { slot, left: 0 };
    Skipping { rest, last }
}

// The window of a place's first slot, and its run.
pub fn next_run(slab: &[u8], q: window::Reading, place: model::Place) -> Run
    requires readable { Readable slab.now q }
    requires slot_lt_slots { (place.slot < q.slots) × (0 < place.left) }
    ensures { Ran (job_in slab.now q) q.slots place result }
{
    let slot = place.slot;
    let left = place.left;
    let source = window::source_of(slab, q);
    let t = source.stamp(slot);
    let w = window::window_of(q.long, t);
    let next = ring::next_slot(q.slots, slot);
    let behind = model::Place {
        slot: next,
        left: left - 1,
    };
    let over = skip(slab, q, w, q.long, behind);
    let rest = over.rest;
    let run = model::Place {
        slot,
        left: left - over.last,
    };
    Run {
        window: w,
        run,
        rest,
    }
}

// A part of the range, from its start up to this end, whose windows never fall in reading order; and the place of its first slot.
#[derive(Clone, Copy)]
pub struct Strand {
    pub place: model::Place,
    pub end: u64,
}

// What was met against the reading order: the end so far, the least window from there on, and the place of the first slot in the part.
#[derive(Clone, Copy)]
struct Edge {
    end: u64,
    low: u64,
    place: model::Place,
}

// The slot at v, counted on round the ring.
fn slot_at(n: usize, v: usize) -> usize
    requires { v < n + n }
    ensures { (result ≡ v % n) × (result < n) }
{
    if v < n {
        return v;
    }
    v - n
}

// The part from `start` on, met from the last slot to the first, `head` being its first slot so far. A window above the least of those behind it falls out of the
// part, and the end comes down to it.
fn edge_of(slab: &[u8], q: window::Reading, start: u64, place: model::Place) -> Edge
    requires readable { Readable slab.now q }
    requires slot_lt_slots { (place.slot < q.slots) × (place.left ≤ q.slots) }
    ensures { Edged (onward (job_in slab.now q) start) q.slots (walk q.slots place.slot place.left) result.end result.low result.place }
{
    let source = window::source_of(slab, q);
    let behind = place.slot + place.left;
    let mut end = q.end;
    let mut low = q.end;
    let mut head = behind;
    for v in (place.slot..behind).rev() {
        let slot = slot_at(q.slots, v);
        let t = source.stamp(slot);
        if t < start {
            continue;
        }
        if t >= end {
            continue;
        }
        if t < low {
            low = window::window_of(q.long, t);
            head = v;
            continue;
        }
        if q.long <= t - low {
            end = window::window_of(q.long, t);
            continue;
        }
        head = v;
    }
    let slot = slot_at(q.slots, head);
    Edge {
        end,
        low,
        place: model::Place {
            slot,
            left: behind - head,
        },
    }
}

// The slots of a place up to the last one that is in the range from `start` on.
fn up_to_last(slab: &[u8], q: window::Reading, start: u64, place: model::Place) -> model::Place
    requires readable { Readable slab.now q }
    requires slot_lt_slots { (place.slot < q.slots) × (place.left ≤ q.slots) }
    ensures { Trimmed (onward (job_in slab.now q) start) q.slots place result }
{
    let source = window::source_of(slab, q);
    for left in (0..place.left).rev() {
        let slot = slot_at(q.slots, place.slot + left);
        let t = source.stamp(slot);
        let inside = in_range(start, q.end, t);
        if inside {
            return model::Place {
                slot: place.slot,
                left: left + 1,
            };
        }
    }
    model::Place {
        slot: place.slot,
        left: 0,
    }
}

// The greatest such part of the range from `start` on, in one pass against the reading order.
pub fn next_strand(slab: &[u8], q: window::Reading, start: u64, first: model::Place) -> Strand
    requires readable { Readable slab.now q }
    requires slot_lt_slots { (first.slot < q.slots) × (first.left ≤ q.slots) }
    ensures { Stranded (onward (job_in slab.now q) start) q.slots first result }
{
    let slots = up_to_last(slab, q, start, first);
    let e = edge_of(slab, q, start, slots);
    let place = e.place;
    Strand { place, end: e.end }
}
