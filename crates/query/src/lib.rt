// `query` and `query_auto` by value (Rust's `Store::query` and `Store::query_auto`): opening's order on every call, then 11, 14, 15, or 11, 15 and the choice of
// a tier; the answer has the tier, both ends, the range, the incomplete mark and the reader's place. Nothing that is lent changes. `query_numbered` and
// `auto_numbered` have the flags as one number, as they cross the edge to C, once opening's check has passed.
#![tactic(auto)]

ghost use Rattle.std.specs.Prelude.{◌≡◌};
ghost use Rattle.model.specs.Query.{query, query_auto, replied_by};
ghost use Rattle.lookup.specs.Parts.{lent_of};
ghost use Rattle.flag_bits.specs.One.{lent_at};
ghost use Rattle.query.specs.Sought.{SoughtIs};

// The row of a handle's tier, once opening's check has passed: 11, 14, 15, or the row.
pub fn seek(
    image: &lookup::Image,
    handle: model::SeriesHandle,
    tier: u32,
    start: u64,
    end: u64,
) -> Result<usize, model::Refusal>
    ensures { SoughtIs image.now.bytes.now handle.schema handle.column tier start end result }
{
    let schema = handle.schema as u64;
    let Some(first) = image.finest_row(schema, handle.column as u64) else {
        return Err(model::Refusal::InvalidHandle);
    };
    let there = tiers::has_tier(image, schema, first, tier as usize);
    if !there {
        return Err(model::Refusal::InvalidTier);
    }
    if start < end {
        let row = first + (tier as usize);
        return Ok(row);
    }
    Err(model::Refusal::InvalidTimeRange)
}

// Queries a tier, once opening's check has passed. It reads the row's flag alone: to make the number of all 32 first, as `query_auto` does, takes 89
// instructions more.
fn query_opened(
    image: &lookup::Image,
    flags: model::Flags,
    handle: model::SeriesHandle,
    tier: u32,
    start: u64,
    end: u64,
) -> Result<model::Found, model::Refusal>
    ensures { replied_by image.now.bytes.now result ≡ query (lent_of image.now.bytes.now flags) handle.schema handle.column tier start end }
{
    let row = seek(image, handle, tier, start, end)?;
    let wrapped = lookup::flag(flags, row);
    let found = tiers::answer(image, row, wrapped, handle.column, tier, start, end);
    Ok(found)
}

// The same with the flags as a number, of which one is read.
pub fn query_numbered(
    image: &lookup::Image,
    flags: u32,
    handle: model::SeriesHandle,
    tier: u32,
    start: u64,
    end: u64,
) -> Result<model::Found, model::Refusal>
    ensures { replied_by image.now.bytes.now result ≡ query (lent_at image.now.bytes.now flags) handle.schema handle.column tier start end }
{
    let row = seek(image, handle, tier, start, end)?;
    let wrapped = flag_bits::flag_at(flags, row);
    let found = tiers::answer(image, row, wrapped, handle.column, tier, start, end);
    Ok(found)
}

// Queries the tier that covers the range best, once opening's check has passed, with the flags as a number.
pub fn auto_numbered(
    image: &lookup::Image,
    flags: u32,
    handle: model::SeriesHandle,
    start: u64,
    end: u64,
) -> Result<model::Found, model::Refusal>
    ensures { replied_by image.now.bytes.now result ≡ query_auto (lent_at image.now.bytes.now flags) handle.schema handle.column start end }
{
    let schema = handle.schema as u64;
    let column = handle.column;
    let Some(first) = image.finest_row(schema, column as u64) else {
        return Err(model::Refusal::InvalidHandle);
    };
    if start >= end {
        return Err(model::Refusal::InvalidTimeRange);
    }
    let chosen = tiers::choose(image, flags, schema, first, start, end);
    let tier = chosen.tier as u32;
    let reach = chosen.reach;
    let found = tiers::answer_of(reach, column, tier, start, end);
    Ok(found)
}

// Queries a series at a tier.
pub fn query(
    image: &[u8],
    flags: model::Flags,
    handle: model::SeriesHandle,
    tier: u32,
    start: u64,
    end: u64,
) -> Result<model::Found, model::Refusal>
    ensures { replied_by image.now result ≡ query (lent_of image.now flags) handle.schema handle.column tier start end }
{
    let image = lookup::Image::checked(image)?;
    query_opened(&image, flags, handle, tier, start, end)
}

// Queries a series at the tier that covers the range best.
pub fn query_auto(
    image: &[u8],
    flags: model::Flags,
    handle: model::SeriesHandle,
    start: u64,
    end: u64,
) -> Result<model::Found, model::Refusal>
    ensures { replied_by image.now result ≡ query_auto (lent_of image.now flags) handle.schema handle.column start end }
{
    let image = lookup::Image::checked(image)?;
    let number = flag_bits::number_of(flags);
    auto_numbered(&image, number, handle, start, end)
}
