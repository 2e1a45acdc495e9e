// Consolidation by value: opening's order on every call, then every pair of adjacent rows of a schema, in row order (Rust's consolidate.rs). A refusal ends
// the run; what was done before it stays.
#![tactic(auto)]

ghost use Rattle.std.specs.Prelude.{◌≡◌, suc, ◌-◌, ◌<◌, eqb};
ghost use Rattle.model.specs.Words.{outcome_no};
ghost use Rattle.model.specs.Image.{row_count, row_at, open_check};
ghost use Rattle.model.specs.Consolidate.{pairs};
ghost use Rattle.model.specs.Store.{call, consolidate_call, wrote_or, consolidated_reply};
ghost use Rattle.lookup.specs.Parts.{lent_of};
ghost use Rattle.pair.specs.Parts.{run_of};
ghost use Rattle.consolidate.specs.Parts.{fresh, run_done};

// A row and the next are of one schema.
fn same_schema(image: &lookup::Image, row: usize) -> bool
    requires { suc row < row_count image.now.bytes.now }
    ensures { result ≡ eqb (row_at image.now.bytes.now row).schema (row_at image.now.bytes.now (suc row)).schema }
{
    let here = rows::row_at(image.bytes, row);
    let next = rows::row_at(image.bytes, row + 1);
    here.schema == next.schema
}

// Every pair.
fn run_pairs(image: &mut [u8], flags: model::Flags) -> pair::Progress
    requires { open_check image.old ≡ 0 }
    ensures { run_of image.new result ≡ pairs (fresh image.old flags) 0 (row_count image.old - 1) }
{
    let n = field::get_u32(image, format::HEADER_ROWS) as usize;
    let mut u = pair::Progress {
        flags,
        count: 0,
        outcome: Ok(()),
    };
    for i in 0..n - 1 {
        let same = same_schema(&lookup::Image { bytes: image }, i);
        if !same {
            continue;
        }
        u = pair::pair(image, u, i);
        let outcome = u.outcome;
        let Ok(()) = outcome else {
            return u;
        };
    }
    u
}

// A run's answer: how many values were written, or the refusal alone.
fn answer_of(outcome: Result<(), model::Refusal>, count: u64) -> Result<u64, model::Refusal>
    ensures { consolidated_reply result ≡ wrote_or (outcome_no outcome) count }
{
    match outcome {
        Ok(()) => Ok(count),
        Err(x) => Err(x),
    }
}

// Consolidates every pair. The check alone: a `lookup::Image` would lend the image that is written.
pub fn consolidate(
    image: &mut [u8],
    flags: model::Flags,
) -> model::Called<Result<u64, model::Refusal>>
    ensures { run_done image.new result ≡ call (lent_of image.old flags) consolidate_call }
{
    let opened = image_checked::check_image(image);
    let Ok(()) = opened else {
        let answer = answer_of(opened, 0);
        return model::Called { answer, flags };
    };
    let u = run_pairs(image, flags);
    let outcome = u.outcome;
    let answer = answer_of(outcome, u.count);
    let after = u.flags;
    model::Called {
        answer,
        flags: after,
    }
}
