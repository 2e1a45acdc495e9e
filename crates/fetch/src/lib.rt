// Many points in one call: a reader's steps, one after the other, into a lent slice of words. Nothing is supposed of slab, place or slice: a place made by
// hand never reads out of bounds.
#![tactic(auto)]

ghost use Rattle.std.specs.Prelude.{◌≡◌, true, ◌/◌, length};
ghost use Rattle.std.proofs.lemmas.List.Edits.{sets};
ghost use Rattle.model.specs.Read.{readable};
ghost use Rattle.reader.specs.Held.{Held};
ghost use Rattle.fetch.specs.Fetch.{fetch_up_to, words};

// How many points were stored, and the place after them.
#[derive(Clone, Copy)]
pub struct Fetched {
    pub count: usize,
    pub place: model::Place,
}

// The steps from a place that can be read.
fn fetch_from(
    slab: &[u8],
    n: usize,
    m: usize,
    column: u32,
    start: u64,
    end: u64,
    place: model::Place,
    points: &mut [u64],
) -> Fetched
    requires held { Held slab.now n m }
    requires place_value { readable slab.now column place ≡ true }
    ensures count { result.count ≡ length (fetch_up_to (length points.old / 2) slab.now column start end place).points }
    ensures place { result.place ≡ (fetch_up_to (length points.old / 2) slab.now column start end place).place }
    ensures stored { points.new ≡ sets points.old 0 (words (fetch_up_to (length points.old / 2) slab.now column start end place).points) }
{
    let room = points.len() / 2;
    let mut here = place;
    for count in 0..room {
        let stepped = reader::step_from(slab, n, m, column as usize, start, end, here);
        here = stepped.place;
        let next = stepped.next;
        let Some(p) = next else {
            return Fetched { count, place: here };
        };
        points[2 * count] = p.stamp;
        points[2 * count + 1] = p.value;
    }
    Fetched {
        count: room,
        place: here,
    }
}

// As many points of a column in the range as the slice has room for, two words each: stamp, value.
pub fn fetch(
    slab: &[u8],
    column: u32,
    start: u64,
    end: u64,
    place: model::Place,
    points: &mut [u64],
) -> Fetched
    ensures count { result.count ≡ length (fetch_up_to (length points.old / 2) slab.now column start end place).points }
    ensures place { result.place ≡ (fetch_up_to (length points.old / 2) slab.now column start end place).place }
    ensures stored { points.new ≡ sets points.old 0 (words (fetch_up_to (length points.old / 2) slab.now column start end place).points) }
{
    if points.len() < 2 {
        return Fetched { count: 0, place };
    }
    let reads = reader::is_readable(slab, column, place);
    if reads {
        let n = field::get_u32(slab, format::SLAB_SLOTS) as usize;
        let m = field::get_u32(slab, format::SLAB_SERIES) as usize;
        return fetch_from(slab, n, m, column, start, end, place, points);
    }
    Fetched {
        count: 0,
        place: model::Place {
            slot: place.slot,
            left: 0,
        },
    }
}
