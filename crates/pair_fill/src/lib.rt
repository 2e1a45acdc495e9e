// A window's writes over one image: columns ascending. The source is read as a part of the image, then the destination is lent on as
// another part, one after the other; a refusal ends them. The source's bytes, and all others but the destination's, stay.
#![tactic(auto)]

ghost use Rattle.std.specs.Prelude.{◌≡◌, ◌+◌, ◌<◌, ◌≤◌, ◌^◌, Ok};
ghost use Rattle.model.specs.Window.{window_answer};
ghost use Rattle.model.specs.Consolidate.{write_answer, fill_window};
ghost use Rattle.pair_fill.specs.Parts.{Lies, Covers, Keeps, source_in, pair_job, filled_in};

// A pair: where the source stands in the image and what is read of it, and the destination.
#[derive(Clone, Copy)]
pub struct Pair {
    pub from: usize,
    pub to: usize,
    pub reading: window::Reading,
    pub dest: lookup::Slab,
}

// One column of a window, read from these slots.
fn fill_column(
    image: &mut [u8],
    p: Pair,
    filling: window_write::Filling,
    window: u64,
    column: usize,
    place: model::Place,
) -> window_write::Filling
    requires lies { Lies image.old p × Covers (source_in image.old p) p.reading window place }
    requires column_lt_series { (column < p.reading.series) × (filling.writes < 2 ^ 63) }
    ensures result_after { filled_in image.new p result ≡ write_answer (window_answer (pair_job image.old p) window column) (filled_in image.old p filling) window column }
    ensures keeps { Keeps image.old image.new p × (result.writes ≤ filling.writes + 1) }
{
    let q = p.reading;
    let from = p.from;
    let to = p.to;
    let x = window::answer(&image[from..to], q, window, column, place);
    let d = p.dest;
    let start = d.from;
    let end = d.to;
    let z = d.sizes;
    window_write::write_answer(&mut image[start..end], z, x, filling, window, column)
}

// Every column of a window, read from slots that have all of it.
pub fn fill_window(
    image: &mut [u8],
    p: Pair,
    filling: window_write::Filling,
    window: u64,
    place: model::Place,
) -> window_write::Filling
    requires lies { Lies image.old p × Covers (source_in image.old p) p.reading window place }
    requires outcome_value { (filling.outcome ≡ Ok tt) × (filling.writes + p.reading.series ≤ 2 ^ 63) }
    ensures result_after { filled_in image.new p result ≡ fill_window (pair_job image.old p) (filled_in image.old p filling) window 0 p.reading.series }
    ensures keeps { Keeps image.old image.new p × (result.writes ≤ filling.writes + p.reading.series) }
{
    let mut done = filling;
    for column in 0..p.reading.series {
        done = fill_column(image, p, done, window, column, place);
        let outcome = done.outcome;
        let Ok(()) = outcome else {
            return done;
        };
    }
    done
}
