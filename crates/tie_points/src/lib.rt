// Steps the reader of a query's answer to its end and writes the points into a lent slice of words, two a point: stamp, then value. It stops where the slice
// is full; a refused query has no points. The words past the points stay.
#![tactic(auto)]

ghost use Rattle.std.specs.Prelude.{◌≡◌, ◌/◌, min, length, take};
ghost use Rattle.std.proofs.lemmas.List.Edits.{sets};
ghost use Rattle.model.specs.Read.{points_from};
ghost use Rattle.model.specs.Store.{queried_reply};
ghost use Rattle.demand.specs.Demand.{handed_out};
ghost use Rattle.fetch.specs.Fetch.{words};

// The points from a place to the reader's end, or until `out` is full. Answers how many.
fn hand_out(
    slab: &[u8],
    column: u32,
    start: u64,
    end: u64,
    from: model::Place,
    out: &mut [u64],
) -> usize
    ensures count { result ≡ length (take (length out.old / 2) (points_from from.left slab.now column start end from)) }
    ensures stored { out.new ≡ sets out.old 0 (words (take (length out.old / 2) (points_from from.left slab.now column start end from))) }
{
    let fetched = fetch::fetch(slab, column, start, end, from, out);
    fetched.count
}

// Writes out the points of a query's answer on the image that it was asked of. Answers how many.
pub fn hand_answer(
    image: &[u8],
    queried: Result<model::Found, model::Refusal>,
    out: &mut [u64],
) -> usize
    ensures count { result ≡ length (take (length out.old / 2) (handed_out (queried_reply image.now queried))) }
    ensures stored { out.new ≡ sets out.old 0 (words (take (length out.old / 2) (handed_out (queried_reply image.now queried)))) }
{
    let Ok(found) = queried else {
        return 0;
    };
    let len = image.len();
    let to = found.to.min(len);
    let from = found.from.min(to);
    let place = found.place;
    hand_out(
        &image[from..to],
        found.column,
        found.start,
        found.end,
        place,
        out,
    )
}
