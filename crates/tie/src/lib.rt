// The third demand about the code. `demand` creates a store in a lent slice, carries out the calls before a run, the run and the calls between, queries a
// column at a tier over all time, and writes out the points that the reader hands out. What it ensures is the third demand of those points (specs/Kept.antt),
// for every plan, slice, flags and calls in bytes; nothing is required. A point takes two words of `out`: stamp, then value; the words past the points stay.
#![tactic(auto)]

ghost use Rattle.std.specs.Prelude.{◌≡◌, ◌++◌, ◌∷◌, []};
ghost use Rattle.model.specs.Store.{after, consolidate_call};
ghost use Rattle.lookup.specs.Parts.{lent_of};
ghost use Rattle.tie_calls.specs.Encoded.{calls_in};
ghost use Rattle.tie.specs.Kept.{situation, Kept};

// The flags as the last call left them, and how many points were written out.
#[derive(Clone, Copy)]
pub struct Demanded {
    pub flags: model::Flags,
    pub count: usize,
}

// Carries out the calls before a run, the run, and the calls between it and the query. Answers the flags.
pub fn carry_all(
    image: &mut [u8],
    flags: model::Flags,
    before: &[u8],
    between: &[u8],
) -> model::Flags
    ensures { lent_of image.new result ≡ after (after (lent_of image.old flags) (calls_in before.now ++ consolidate_call ∷ [])) (calls_in between.now) }
{
    let recorded = tie_calls::carry_out(image, flags, before);
    let done = consolidate::consolidate(image, recorded);
    let ran = done.flags;
    tie_calls::carry_out(image, ran, between)
}

// From a plan to the points of a query after a run.
pub fn demand(
    plan: &[u8],
    image: &mut [u8],
    flags: model::Flags,
    before: &[u8],
    between: &[u8],
    column: u32,
    tier: u32,
    out: &mut [u64],
) -> Demanded
    ensures { Kept (situation plan.now image.old flags before.now between.now column tier) (lent_of image.new result.flags) out.old out.new result.count }
{
    let made = create::create(plan, image, flags);
    let fresh = made.flags;
    let last = carry_all(image, fresh, before, between);
    let handle = model::SeriesHandle { schema: 0, column };
    let queried = query::query(image, last, handle, tier, 0, 18446744073709551615);
    let count = tie_points::hand_answer(image, queried, out);
    Demanded { flags: last, count }
}
