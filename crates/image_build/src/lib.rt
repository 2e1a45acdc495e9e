// The bytes of a fresh image, written in place: header, rows with their slabs' places, slabs. Every byte past the image stays.
#![tactic(auto)]

ghost use Rattle.std.specs.Prelude.{◌≡◌, true, ◌++◌, ◌+◌, ◌*◌, ◌≤◌, length, take, drop};
ghost use Rattle.model.specs.Bytes.{bytes, splice};
ghost use Rattle.model.specs.Image.{row_length, row_bytes, placed_row, placed_rows, all_rows, slabs_end, fresh_slabs, shape, image_length, fresh_image};
ghost use Rattle.rows.specs.Rows.{rows_to};

// A row's first five fields.
fn put_low(row: &mut [u8], r: model::Row)
    requires { length row.old ≡ 64 }
    ensures { row.new ≡ splice row.old 0 (bytes 4 r.schema ++ bytes 4 r.tier ++ bytes 8 r.interval ++ bytes 8 r.retention ++ bytes 4 r.function) }
{
    field::put_u32(row, format::ROW_SCHEMA, r.schema as u64);
    field::put_u32(row, format::ROW_TIER, r.tier as u64);
    field::put_u64(row, format::ROW_INTERVAL, r.interval);
    field::put_u64(row, format::ROW_RETENTION, r.retention);
    field::put_u32(row, format::ROW_FUNCTION, r.function as u64);
}

// A row's bytes.
fn put_row(row: &mut [u8], r: model::Row)
    requires { length row.old ≡ 64 }
    ensures { row.new ≡ row_bytes r }
{
    put_low(row, r);
    field::put_u32(row, format::ROW_SERIES, r.series as u64);
    field::put_u64(row, format::ROW_OFFSET, r.offset);
    field::put_u64(row, format::ROW_LENGTH, r.len);
    field::put_u64(row, format::ROW_MARK, r.mark);
    field::put_u64(row, format::ROW_HASH, r.hash);
}

// A plan's row with its slab's place.
fn placed_row(r: model::Row, at: u64, len: u64) -> model::Row
    requires { len ≡ row_length r }
    ensures { result ≡ placed_row r at }
{
    model::Row {
        schema: r.schema,
        tier: r.tier,
        interval: r.interval,
        retention: r.retention,
        function: r.function,
        series: r.series,
        offset: at,
        len,
        mark: 0,
        hash: r.hash,
    }
}

// The rows.
fn put_rows(plan: &rows::Table, image: &mut [u8])
    requires few { plan.now.count ≤ 32 }
    requires ends_low { slabs_end (32 + 64 * plan.now.count) (rows_to plan.now.bytes.now plan.now.count 0) ≤ 1099511627776 }
    requires rows_in { 32 + 64 * plan.now.count ≤ length image.old }
    ensures { image.new ≡ splice image.old 32 (all_rows (placed_rows (32 + 64 * plan.now.count) (rows_to plan.now.bytes.now plan.now.count 0))) }
{
    let mut at: u64 = format::HEADER as u64 + format::ROW as u64 * (plan.count as u64);
    for i in 0..plan.count {
        let r = plan.row(i);
        let len = layout::row_length(r);
        let q = placed_row(r, at, len);
        let from = format::HEADER + format::ROW * i;
        let end = from + format::ROW;
        put_row(&mut image[from..end], q);
        at += len;
    }
}

// The slabs.
fn put_slabs(plan: &rows::Table, image: &mut [u8])
    requires few { plan.now.count ≤ 32 }
    requires ends_low { slabs_end (32 + 64 * plan.now.count) (rows_to plan.now.bytes.now plan.now.count 0) ≤ 1099511627776 }
    requires ends_in { slabs_end (32 + 64 * plan.now.count) (rows_to plan.now.bytes.now plan.now.count 0) ≤ length image.old }
    ensures { image.new ≡ splice image.old (32 + 64 * plan.now.count) (fresh_slabs (rows_to plan.now.bytes.now plan.now.count 0)) }
{
    let mut at = format::HEADER + format::ROW * plan.count;
    for i in 0..plan.count {
        let r = plan.row(i);
        let slots = layout::row_slots(r);
        let len = layout::row_length(r);
        let end = at + (len as usize);
        slab_bytes::fresh_slab(
            &mut image[at..end],
            r.hash,
            slots,
            r.series as u64,
            r.interval,
        );
        at = end;
    }
}

// Magic, version, S and R.
fn copy_head(plan: &[u8], image: &mut [u8])
    requires { (16 ≤ length plan.now) × (16 ≤ length image.old) }
    ensures { image.new ≡ splice image.old 0 (take 16 plan.now) }
{
    image[..format::HEADER_TOTAL].copy_from_slice(&plan[..format::HEADER_TOTAL]);
}

// The fresh image of a plan that passed, at the start of a slice that is long enough.
pub fn put_image(plan: &[u8], image: &mut [u8])
    requires plan_value { shape plan.now ≡ true }
    requires plan_bound { (image_length plan.now ≤ 1099511627776) × (image_length plan.now ≤ length image.old) }
    ensures { image.new ≡ fresh_image plan.now ++ drop (image_length plan.now) image.old }
{
    let table = rows::Table::of(plan);
    let len = image::length_of(plan);
    copy_head(plan, image);
    field::put_u64(image, format::HEADER_TOTAL, len);
    field::put_u64(image, format::HEADER_ZERO, 0);
    put_rows(&table, image);
    put_slabs(&table, image);
}
