// `record` by value: opening's order on every call, then 11, 12, 13, 18, then the write to the schema's finest ring (Rust's `Store::record`). The row's slab is
// lent on as a part of the image; other slabs' bytes, other rows' flags and the surplus stay. `ready` asks for no flag and `store`
// for one, so that a caller may keep its flags as it likes.
#![tactic(auto)]

ghost use Rattle.std.specs.Prelude.{◌≡◌, ◌<◌};
ghost use Rattle.model.specs.Words.{outcome_no};
ghost use Rattle.model.specs.Image.{row_count, row_at, open_check};
ghost use Rattle.ring.specs.Parts.{one};
ghost use Rattle.lookup.specs.Parts.{lent_of};
ghost use Rattle.flag_bits.specs.One.{lent_at};
ghost use Rattle.record.specs.Done.{RecordDone};
ghost use Rattle.record.specs.Ready.{Readied, RowWritten};

// Stores one value in a row's ring, as if its flag were `wrapped`. Answers the flag after it.
pub fn store(
    image: &mut [u8],
    row: usize,
    column: usize,
    value: u64,
    stamp: u64,
    wrapped: bool,
) -> bool
    requires image_value { open_check image.old ≡ 0 }
    requires row_bound { (row < row_count image.old) × (column < (row_at image.old row).series) }
    ensures { RowWritten image.old image.new row (one column value) stamp wrapped result }
{
    let slab = lookup::Image { bytes: image }.slab_at(row);
    let from = slab.from;
    let to = slab.to;
    let z = slab.sizes;
    ring_write::write(&mut image[from..to], z, column, value, stamp, wrapped)
}

// Where a value goes, once opening's check has passed: 11, 12, 13, 18, or its row.
pub fn ready_opened(
    image: &lookup::Image,
    handle: model::SeriesHandle,
    value: u64,
    stamp: u64,
) -> Result<usize, model::Refusal>
    ensures { Readied image.now.bytes.now handle.schema handle.column value stamp result }
{
    let found = image.finest_row(handle.schema as u64, handle.column as u64);
    let Some(row) = found else {
        return Err(model::Refusal::InvalidHandle);
    };
    let infinite = field::is_infinite(value);
    let good = field::is_good_stamp(stamp);
    let old = image.is_old(row, stamp);
    if infinite {
        return Err(model::Refusal::InvalidValue);
    }
    if !good {
        return Err(model::Refusal::InvalidTimestamp);
    }
    if old {
        return Err(model::Refusal::OldSample);
    }
    Ok(row)
}

// Where a value goes: opening's check first.
pub fn ready(
    image: &[u8],
    handle: model::SeriesHandle,
    value: u64,
    stamp: u64,
) -> Result<usize, model::Refusal>
    ensures { Readied image.now handle.schema handle.column value stamp result }
{
    let image = lookup::Image::checked(image)?;
    ready_opened(&image, handle, value, stamp)
}

// Records one value.
pub fn record(
    image: &mut [u8],
    flags: model::Flags,
    handle: model::SeriesHandle,
    value: u64,
    stamp: u64,
) -> model::Called<Result<(), model::Refusal>>
    ensures { RecordDone (lent_of image.old flags) handle.schema handle.column value stamp (outcome_no result.answer) (lent_of image.new result.flags) }
{
    let found = ready(image, handle, value, stamp);
    match found {
        Ok(row) => {
            let wrapped = lookup::flag(flags, row);
            let after = store(image, row, handle.column as usize, value, stamp, wrapped);
            let next = lookup::with_flag(flags, row, after);
            model::Called {
                answer: Ok(()),
                flags: next,
            }
        }
        Err(r) => model::Called {
            answer: Err(r),
            flags,
        },
    }
}

// Records one value, once opening's check has passed, with the flags as one number, as it crosses the edge to C. No flag is read: the row's ring is written as
// if its flag were off, which gives the same bytes, and the flag is set, in place, where the write went below the cursor. Answers 0, or the refusal's number.
pub fn record_opened(
    image: &mut [u8],
    flags: &mut u32,
    handle: model::SeriesHandle,
    value: u64,
    stamp: u64,
) -> u32
    requires { open_check image.old ≡ 0 }
    ensures { RecordDone (lent_at image.old flags.old) handle.schema handle.column value stamp result (lent_at image.new flags.new) }
{
    let found = ready_opened(&lookup::Image { bytes: image }, handle, value, stamp);
    match found {
        Ok(row) => {
            let lower = store(image, row, handle.column as usize, value, stamp, false);
            if lower {
                *flags = flag_bits::with_flag(*flags, row, true);
            }
            0
        }
        Err(r) => model::refusal_number(r),
    }
}
