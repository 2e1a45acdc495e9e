// The reader's step (Rust's `RingIterator::next`): the next point in reading order, or the end, and where the reader stands then. The slab's bytes stand
// beside the place, and nothing is supposed of either: a place made by hand never reads out of bounds.
#![tactic(auto)]

ghost use Rattle.std.specs.Prelude.{◌≡◌, ◌<◌};
ghost use Rattle.model.specs.Read.{readable, step_from, step};
ghost use Rattle.reader.specs.Held.{Held};

// Slab, column and place can be read: the slab is as long as its header says, and no more slots are left than it has.
pub fn is_readable(slab: &[u8], column: u32, place: model::Place) -> bool
    ensures { result ≡ readable slab.now column place }
{
    if slab.len() < format::SLAB_HEADER {
        return false;
    }
    let n = field::get_u32(slab, format::SLAB_SLOTS);
    let m = field::get_u32(slab, format::SLAB_SERIES);
    let stamps = format::stamps_at(m as usize);
    if slab.len() < stamps {
        return false;
    }
    if ((slab.len() - stamps) as u64) / 8 < n * (m + 1) {
        return false;
    }
    if (column as u64) >= m {
        return false;
    }
    if (place.slot as u64) >= n {
        return false;
    }
    (place.left as u64) <= n
}

// From a place on: the first slot that is handed out, and the place after it.
pub fn step_from(
    slab: &[u8],
    n: usize,
    m: usize,
    column: usize,
    start: u64,
    end: u64,
    place: model::Place,
) -> model::Stepped
    requires held { Held slab.now n m }
    requires column_lt_m { (column < m) × (place.slot < n) }
    ensures { result ≡ step_from slab.now column start end place.slot place.left }
{
    let mut slot = place.slot;
    for left in (0..place.left).rev() {
        let here = slot;
        let at = ring::stamp_place(n, m, here);
        let stamp = field::get_u64(slab, at);
        slot = ring::next_slot(n, here);
        if stamp < start {
            continue;
        }
        if end <= stamp {
            continue;
        }
        let cell = ring::cell_place(n, m, column, here);
        let value = field::get_u64(slab, cell);
        let nan = field::is_nan(value);
        if nan {
            continue;
        }
        return model::Stepped {
            next: Some(model::Point { stamp, value }),
            place: model::Place { slot, left },
        };
    }
    model::Stepped {
        next: None,
        place: model::Place { slot, left: 0 },
    }
}

// The next point of a column in the range, or the end.
pub fn step(slab: &[u8], column: u32, start: u64, end: u64, place: model::Place) -> model::Stepped
    ensures { result ≡ step slab.now column start end place }
{
    let reads = is_readable(slab, column, place);
    if reads {
        let n = field::get_u32(slab, format::SLAB_SLOTS) as usize;
        let m = field::get_u32(slab, format::SLAB_SERIES) as usize;
        return step_from(slab, n, m, column as usize, start, end, place);
    }
    model::Stepped {
        next: None,
        place: model::Place {
            slot: place.slot,
            left: 0,
        },
    }
}
