// One pair of an image in good order, the rows i and i + 1 of a schema: 16, then 10, then the source's windows written to the destination, then the mark. A
// refusal leaves what was written before it, and the mark where it was.
#![tactic(auto)]

ghost use Rattle.std.specs.Prelude.{◌≡◌, true, ◌&&◌, ◌+◌, ◌-◌, ◌<◌, ◌≤◌, ◌^◌, eqb, ltb, length};
ghost use Rattle.model.specs.Words.{outcome_no};
ghost use Rattle.model.specs.Image.{row_at, row_place, slab_of};
ghost use Rattle.model.specs.Ring.{slots};
ghost use Rattle.model.specs.Consolidate.{stamps_below, pair, pair_with};
ghost use Rattle.pair.specs.Parts.{run_of, PairAt, Adjacent, marked_if};

// A run so far: the flags, how many writes, and how it ended.
#[derive(Clone, Copy)]
pub struct Progress {
    pub flags: model::Flags,
    pub count: u64,
    pub outcome: Result<(), model::Refusal>,
}

// The pair of a row and the next, whose stamps are all good. Over bytes: `Adjacent`, which the writers ask for, says that the image is in good order.
fn pair_at(
    image: &[u8],
    flags: model::Flags,
    row: usize,
    f: model::ConsolidationFn,
) -> pair_fill::Pair
    requires adjacent { Adjacent image.now row }
    requires row_value { stamps_below (slab_of image.now (row_at image.now row)) 0 (slots (slab_of image.now (row_at image.now row))) ≡ true }
    ensures { PairAt image.now flags row f result }
{
    let opened = lookup::Image { bytes: image };
    let d = opened.slab_at(row);
    let next = opened.slab_at(row + 1);
    let r = rows::row_at(image, row);
    let wrapped = lookup::flag(flags, row);
    let from = d.from;
    let to = d.to;
    let z = d.sizes;
    let coarse = next.sizes;
    let source = ring::Slab {
        bytes: &image[from..to],
        slots: z.slots,
        series: z.series,
    };
    let reading = pair_source::reading_of(&source, wrapped, r.mark, f, coarse.interval);
    pair_fill::Pair {
        from,
        to,
        reading,
        dest: next,
    }
}

// The mark of a row becomes the stamp, if something was written and nothing refused.
fn move_mark(
    image: &mut [u8],
    row: usize,
    stamp: u64,
    writes: u64,
    outcome: Result<(), model::Refusal>,
)
    requires { row_place row + 64 ≤ length image.old }
    ensures { image.new ≡ marked_if (eqb (outcome_no outcome) 0 && ltb 0 writes) image.old row stamp }
{
    let Ok(()) = outcome else {
        return;
    };
    if writes == 0 {
        return;
    }
    field::put_u64(
        image,
        format::HEADER + format::ROW * row + format::ROW_MARK,
        stamp,
    );
}

// One before the end, or 0: the newest stamp.
fn before(end: u64) -> u64
    ensures { result ≡ end - 1 }
{
    if end == 0 {
        return 0;
    }
    end - 1
}

// The pair with its function, its stamps all good.
fn fill_pair(image: &mut [u8], u: Progress, row: usize, f: model::ConsolidationFn) -> Progress
    requires adjacent { Adjacent image.old row }
    requires row_value { (stamps_below (slab_of image.old (row_at image.old row)) 0 (slots (slab_of image.old (row_at image.old row))) ≡ true) × (u.count < 2 ^ 62) }
    ensures { (run_of image.new result ≡ pair_with true f (run_of image.old u) row) × (result.count ≤ u.count + 2 ^ 40) }
{
    let flags = u.flags;
    let p = pair_at(image, flags, row, f);
    let q = p.reading;
    let stamp = before(q.end);
    let wrapped = lookup::flag(flags, row + 1);
    let filling = window_write::Filling {
        wrapped,
        writes: 0,
        outcome: Ok(()),
    };
    let passed = pair_runs::fill_pair(image, p, filling);
    let done = passed.filling;
    let after = lookup::with_flag(flags, row + 1, done.wrapped);
    let outcome = done.outcome;
    move_mark(image, row, stamp, done.writes, outcome);
    Progress {
        flags: after,
        count: u.count + done.writes,
        outcome,
    }
}

// The pair of a row and the next.
pub fn pair(image: &mut [u8], u: Progress, row: usize) -> Progress
    requires adjacent { Adjacent image.old row }
    requires count_bound { u.count < 2 ^ 62 }
    ensures { (run_of image.new result ≡ pair (run_of image.old u) row) × (result.count ≤ u.count + 2 ^ 40) }
{
    let flags = u.flags;
    let next = rows::row_at(image, row + 1);
    let function = pair_source::function_of(next.function);
    let Some(f) = function else {
        return Progress {
            flags,
            count: u.count,
            outcome: Err(model::Refusal::NoConsolidationFunction),
        };
    };
    let d = lookup::Image { bytes: image }.slab_at(row);
    let from = d.from;
    let to = d.to;
    let z = d.sizes;
    let source = ring::Slab {
        bytes: &image[from..to],
        slots: z.slots,
        series: z.series,
    };
    let good = pair_source::stamps_below(&source);
    if !good {
        return Progress {
            flags,
            count: u.count,
            outcome: Err(model::Refusal::CorruptedSlab),
        };
    }
    fill_pair(image, u, row, f)
}
