// The checks of an image and of a plan, in document 01's order, each as one answer: `check_image` is what opening and every later call begins with.
// Where it accepts, image_theory.specs.Good's `good_open` says what holds of the image: its rows, where its slabs stand, that each is sound.
#![tactic(auto)]

ghost use Rattle.std.specs.Prelude.{◌≡◌, true, ◌+◌, ◌*◌, ◌≤◌, length};
ghost use Rattle.model.specs.Words.{outcome_no};
ghost use Rattle.model.specs.Image.{tier_check, shape, layout_check, plan_check, image_length, placed, slabs_end, sound_all, open_check};
ghost use Rattle.rows.specs.Rows.{rows_to};
ghost use Rattle.layout.specs.Ends.{capped};

// The length of an image or of a plan's image.
pub fn length_of(s: &[u8]) -> u64
    requires { shape s.now ≡ true }
    ensures { result ≡ capped (image_length s.now) }
{
    let table = rows::Table::of(s);
    layout::image_length(&table)
}

// What creation and opening share after the shape: 2 to 7 schema by schema, then 8.
fn check_layout(s: &[u8]) -> Result<(), model::Refusal>
    requires { shape s.now ≡ true }
    ensures { outcome_no result ≡ layout_check tier_check s.now }
{
    let k = field::get_u32(s, format::HEADER_SCHEMAS);
    let table = rows::Table::of(s);
    schema::check_schemas(&table, k)?;
    let l = length_of(s);
    if l > layout::LIMIT {
        return Err(model::Refusal::LayoutTooLarge);
    }
    Ok(())
}

// A plan: 1 to 8.
pub fn check_plan(s: &[u8]) -> Result<(), model::Refusal>
    ensures { outcome_no result ≡ plan_check s.now }
{
    let shaped = rows::is_shaped(s);
    if !shaped {
        return Err(model::Refusal::BadImage);
    }
    let blank = rows::is_blank(s);
    if !blank {
        return Err(model::Refusal::BadImage);
    }
    check_layout(s)
}

// Each slab's header suits its row.
fn slabs_sound(table: &rows::Table) -> bool
    requires placed { placed (32 + 64 * table.now.count) (rows_to table.now.bytes.now table.now.count 0) ≡ true }
    requires ends_in { slabs_end (32 + 64 * table.now.count) (rows_to table.now.bytes.now table.now.count 0) ≤ length table.now.bytes.now }
    ensures { result ≡ sound_all table.now.bytes.now (rows_to table.now.bytes.now table.now.count 0) }
{
    let mut good = true;
    for i in 0..table.count {
        let r = table.row(i);
        let offset = r.offset as usize;
        let end = offset + (r.len as usize);
        let one = slab_bytes::is_sound(&table.bytes[offset..end], r);
        good &= one;
    }
    good
}

// An image: 1 to 8, 1 again for total length, offsets, slab lengths and a short slice, then 10 by slab.
pub fn check_image(s: &[u8]) -> Result<(), model::Refusal>
    ensures { outcome_no result ≡ open_check s.now }
{
    let shaped = rows::is_shaped(s);
    if !shaped {
        return Err(model::Refusal::BadImage);
    }
    check_layout(s)?;
    let table = rows::Table::of(s);
    let total = field::get_u64(s, format::HEADER_TOTAL);
    let l = length_of(s);
    let placed = layout::is_placed(&table);
    let right = (total == l) & placed & (l <= (s.len() as u64));
    if !right {
        return Err(model::Refusal::BadImage);
    }
    let sound = slabs_sound(&table);
    if !sound {
        return Err(model::Refusal::CorruptedSlab);
    }
    Ok(())
}
