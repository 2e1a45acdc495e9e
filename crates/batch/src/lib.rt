// `record_batch` by value, with the flags as one number or as a record: opening's order on every call, then 11 for any entry, 13, 12, 18 for any entry's ring, then
// one write to the finest ring of each schema that has entries (Rust's `Store::record_batch`). A refused batch stores nothing; an empty one is accepted at any stamp and changes nothing.
#![tactic(auto)]

ghost use Rattle.std.specs.Prelude.{◌≡◌, true, ◌<◌};
ghost use Rattle.model.specs.Words.{outcome_no};
ghost use Rattle.model.specs.Image.{schemas, open_check};
ghost use Rattle.model.specs.Record.{entries, entries_of, every_entry, write_to, write_schemas};
ghost use Rattle.lookup.specs.Parts.{lent_of};
ghost use Rattle.flag_bits.specs.One.{lent_at};
ghost use Rattle.batch_entries.specs.Entries.{fits};
ghost use Rattle.batch.specs.Done.{Checked, BatchDone};

// Writes a schema's entries to its finest ring. Answers the flags.
fn store_schema(image: &mut [u8], flags: u32, schema: u64, batch: &[u8], stamp: u64) -> u32
    requires image_value { open_check image.old ≡ 0 }
    requires schema_bound { (schema < schemas image.old) × (every_entry (fits image.old) (entries batch.now) ≡ true) }
    ensures { lent_at image.new result ≡ write_to (lent_at image.old flags) schema (entries_of schema (entries batch.now)) stamp }
{
    let opened = lookup::Image { bytes: image };
    let row = opened.first_row(schema);
    let slab = opened.slab_at(row);
    let from = slab.from;
    let to = slab.to;
    let z = slab.sizes;
    let wrapped = flag_bits::flag_at(flags, row);
    let after = ring_write::write_batch(&mut image[from..to], z, batch, schema, stamp, wrapped);
    flag_bits::with_flag(flags, row, after)
}

// Writes every schema's entries, schema by schema. Answers the flags.
fn store_schemas(image: &mut [u8], flags: u32, batch: &[u8], stamp: u64) -> u32
    requires image_value { open_check image.old ≡ 0 }
    requires batch_value { every_entry (fits image.old) (entries batch.now) ≡ true }
    ensures { lent_at image.new result ≡ write_schemas (lent_at image.old flags) 0 (schemas image.old) (entries batch.now) stamp }
{
    let count = field::get_u32(image, format::HEADER_SCHEMAS);
    let mut next = flags;
    for k in 0..count {
        let some = batch_entries::has_entry(batch, k);
        if some {
            next = store_schema(image, next, k, batch, stamp);
        }
    }
    next
}

// Why a batch is refused, once opening's check has passed: an empty one is not, else 11, 13, 12, 18.
fn check_batch(image: &lookup::Image, batch: &[u8], stamp: u64) -> Result<(), model::Refusal>
    ensures { Checked image.now.bytes.now (entries batch.now) stamp (outcome_no result) }
{
    if batch.len() < format::ENTRY {
        return Ok(());
    }
    let outside = batch_entries::any_outside(image, batch);
    if outside {
        return Err(model::Refusal::InvalidHandle);
    }
    let good = field::is_good_stamp(stamp);
    let infinite = batch_entries::any_infinite(batch);
    let old = batch_entries::any_old(image, batch, stamp);
    if !good {
        return Err(model::Refusal::InvalidTimestamp);
    }
    if infinite {
        return Err(model::Refusal::InvalidValue);
    }
    if old {
        return Err(model::Refusal::OldSample);
    }
    Ok(())
}

// Records a batch, once opening's check has passed: its refusal, or the writes.
pub fn batch_opened(
    image: &mut [u8],
    flags: u32,
    batch: &[u8],
    stamp: u64,
) -> model::Called<Result<(), model::Refusal>, u32>
    requires { open_check image.old ≡ 0 }
    ensures { BatchDone (lent_at image.old flags) (entries batch.now) stamp (outcome_no result.answer) (lent_at image.new result.flags) }
{
    let checked = check_batch(&lookup::Image { bytes: image }, batch, stamp);
    let Ok(()) = checked else {
        return model::Called {
            answer: checked,
            flags,
        };
    };
    let next = store_schemas(image, flags, batch, stamp);
    model::Called {
        answer: Ok(()),
        flags: next,
    }
}

// Records a batch, with the flags as a number. The check alone: a `lookup::Image` would lend the image that is written.
fn record_numbered(
    image: &mut [u8],
    flags: u32,
    batch: &[u8],
    stamp: u64,
) -> model::Called<Result<(), model::Refusal>, u32>
    ensures { BatchDone (lent_at image.old flags) (entries batch.now) stamp (outcome_no result.answer) (lent_at image.new result.flags) }
{
    let opened = image_checked::check_image(image);
    let Ok(()) = opened else {
        return model::Called {
            answer: opened,
            flags,
        };
    };
    batch_opened(image, flags, batch, stamp)
}

// Records a batch.
pub fn record_batch(
    image: &mut [u8],
    flags: model::Flags,
    batch: &[u8],
    stamp: u64,
) -> model::Called<Result<(), model::Refusal>>
    ensures { BatchDone (lent_of image.old flags) (entries batch.now) stamp (outcome_no result.answer) (lent_of image.new result.flags) }
{
    let number = flag_bits::number_of(flags);
    let done = record_numbered(image, number, batch, stamp);
    let next = flag_bits::flags_of(done.flags);
    model::Called {
        answer: done.answer,
        flags: next,
    }
}
