// A pair's writes. Where the windows of the source's stamps never fall in reading order, they are runs of slots, one behind the other: each stamp is read once
// to find the part, once for its window and once for each column. Where they fall, the range is read in parts, strand by strand, each of which has windows that never fall.
#![tactic(auto)]

ghost use Rattle.std.specs.Prelude.{◌≡◌, ◌+◌, ◌*◌, ◌<◌, ◌≤◌, ◌^◌, Ok};
ghost use Rattle.model.specs.Ring.{walk};
ghost use Rattle.strand_theory.specs.Cuts.{Passes};
ghost use Rattle.pair_fill.specs.Parts.{Lies, Keeps, pair_job, filled_in};
ghost use Rattle.window_runs.specs.Rest.{Rest};
ghost use Rattle.pair_runs.specs.Parts.{all_filled, in_part};

// A pair filled, and in how many strands.
#[derive(Clone, Copy)]
pub struct Passed {
    pub filling: window_write::Filling,
    pub strands: u64,
}

// Every window, run by run.
fn fill_runs(
    image: &mut [u8],
    p: pair_fill::Pair,
    filling: window_write::Filling,
    place: model::Place,
) -> window_write::Filling
    requires lies { Lies image.old p × (place.slot < p.reading.slots) × (place.left ≤ p.reading.slots) }
    requires outcome_value { (filling.outcome ≡ Ok tt) × (filling.writes + p.reading.series * p.reading.slots ≤ 2 ^ 63) }
    requires rest { Rest (pair_job image.old p) p.reading.series (all_filled image.old p filling) (filled_in image.old p filling) (walk p.reading.slots place.slot place.left) }
    ensures result_after { filled_in image.new p result ≡ all_filled image.old p filling }
    ensures keeps { Keeps image.old image.new p × (result.writes ≤ filling.writes + p.reading.series * p.reading.slots) }
{
    let q = p.reading;
    let from = p.from;
    let to = p.to;
    let mut done = filling;
    let mut here = place;
    // A `while`: a run ends at the first slot of a later window, and its length is not known before.
    while 0 < here.left {
        let r = window_runs::next_run(&image[from..to], q, here);
        let run = r.run;
        done = pair_fill::fill_window(image, p, done, r.window, run);
        let outcome = done.outcome;
        let Ok(()) = outcome else {
            return done;
        };
        here = r.rest;
    }
    done
}

// The pair, its range a part.
fn part_of(p: pair_fill::Pair, start: u64, end: u64) -> pair_fill::Pair
    ensures { result ≡ in_part p start end }
{
    let q = p.reading;
    let f = q.function;
    let d = p.dest;
    let reading = window::Reading {
        slots: q.slots,
        series: q.series,
        wrapped: q.wrapped,
        function: f,
        long: q.long,
        start,
        end,
    };
    pair_fill::Pair {
        from: p.from,
        to: p.to,
        reading,
        dest: d,
    }
}

// Every window of a pair, strand by strand: the greatest part of what is left of the range whose windows never fall in reading order, then the next.
pub fn fill_pair(image: &mut [u8], p: pair_fill::Pair, filling: window_write::Filling) -> Passed
    requires lies { Lies image.old p }
    requires outcome_value { (filling.outcome ≡ Ok tt) × (filling.writes + 2 * (p.reading.series * p.reading.slots) ≤ 2 ^ 63) }
    ensures filling_after { filled_in image.new p result.filling ≡ all_filled image.old p filling }
    ensures keeps { Keeps image.old image.new p × (result.filling.writes ≤ filling.writes + p.reading.series * p.reading.slots) }
    ensures passes { Passes (pair_job image.old p) result.strands }
{
    let q = p.reading;
    let from = p.from;
    let to = p.to;
    let source = window::source_of(&image[from..to], q);
    let first = source.first_place(q.wrapped);
    let mut start = q.start;
    let mut done = filling;
    let mut strands: u64 = 0;
    // A `while`: a turn does a part of the range, whose end comes from the slots.
    while start < q.end {
        let k = window_runs::next_strand(&image[from..to], q, start, first);
        let part = part_of(p, start, k.end);
        let place = k.place;
        done = fill_runs(image, part, done, place);
        strands += 1;
        let outcome = done.outcome;
        let Ok(()) = outcome else {
            return Passed {
                filling: done,
                strands,
            };
        };
        start = k.end;
    }
    Passed {
        filling: done,
        strands,
    }
}
