// The calls that write, in Rust's forms: the image is a lent slice and the flags are changed in place (Rust's `&mut self`). Each copies the flags out, calls
// the by-value core, and stores the flags that it answers. A refused call changes nothing unless the model says so.
#![tactic(auto)]

ghost use Rattle.std.specs.Prelude.{◌≡◌};
ghost use Rattle.model.specs.Words.{outcome_no};
ghost use Rattle.model.specs.Image.{create_check, open_check};
ghost use Rattle.model.specs.Lent.{creation, opening};
ghost use Rattle.model.specs.Record.{entries};
ghost use Rattle.model.specs.Store.{record_call, batch_call, consolidate_call, outcome_reply, consolidated_reply, call};
ghost use Rattle.lookup.specs.Parts.{lent_of};
ghost use Rattle.store.specs.Called.{done_of};

// Creates a plan's image at the start of a lent slice. Later bytes and the flags past the plan's rows stay.
pub fn create(plan: &[u8], image: &mut [u8], flags: &mut model::Flags) -> Result<(), model::Refusal>
    ensures { (outcome_no result ≡ create_check plan.now image.old) × (lent_of image.new flags.new ≡ creation plan.now (lent_of image.old flags.old)) }
{
    let old = *flags;
    let done = create::create(plan, image, old);
    *flags = done.flags;
    done.answer
}

// Opens an image in a lent slice: checks it, and works out the flags of its rows, each from the stamps above its ring's cursor.
pub fn open(image: &[u8], flags: &mut model::Flags) -> Result<(), model::Refusal>
    ensures { (outcome_no result ≡ open_check image.now) × (lent_of image.now flags.new ≡ opening (lent_of image.now flags.old)) }
{
    let old = *flags;
    let done = open::open(image, old);
    *flags = done.flags;
    done.answer
}

// Records one value of a series.
pub fn record(
    image: &mut [u8],
    flags: &mut model::Flags,
    handle: model::SeriesHandle,
    value: u64,
    stamp: u64,
) -> Result<(), model::Refusal>
    ensures { done_of (outcome_reply result) (lent_of image.new flags.new) ≡ call (lent_of image.old flags.old) (record_call handle.schema handle.column value stamp) }
{
    let old = *flags;
    let done = record::record(image, old, handle, value, stamp);
    *flags = done.flags;
    done.answer
}

// Records a batch at one stamp: entries of 16 bytes each, schema, column and value. All are stored, or none.
pub fn record_batch(
    image: &mut [u8],
    flags: &mut model::Flags,
    batch: &[u8],
    stamp: u64,
) -> Result<(), model::Refusal>
    ensures { done_of (outcome_reply result) (lent_of image.new flags.new) ≡ call (lent_of image.old flags.old) (batch_call (entries batch.now) stamp) }
{
    let old = *flags;
    let done = batch::record_batch(image, old, batch, stamp);
    *flags = done.flags;
    done.answer
}

// Consolidates every pair of adjacent tiers. Answers how many values were written; a refusal ends the run, and what was done before it stays.
pub fn consolidate(image: &mut [u8], flags: &mut model::Flags) -> Result<u64, model::Refusal>
    ensures { done_of (consolidated_reply result) (lent_of image.new flags.new) ≡ call (lent_of image.old flags.old) consolidate_call }
{
    let old = *flags;
    let done = consolidate::consolidate(image, old);
    *flags = done.flags;
    done.answer
}
