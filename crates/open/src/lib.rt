// Opening by value: the image's checks, then the first R flags worked out from the stamps above each cursor. Later flags stay; a refusal changes nothing.
#![tactic(auto)]

ghost use Rattle.std.specs.Prelude.{◌≡◌, ◌++◌, ◌+◌, ◌≤◌, drop};
ghost use Rattle.model.specs.Words.{outcome_no};
ghost use Rattle.model.specs.Bytes.{get};
ghost use Rattle.model.specs.Image.{open_check};
ghost use Rattle.model.specs.Ring.{any_stamp, wrap_flag};
ghost use Rattle.model.specs.Lent.{wrap_flags, opening};
ghost use Rattle.rows.specs.Rows.{rows_to};
ghost use Rattle.image.specs.Lent.{lent};

// One of some slots from `first` on has a nonzero stamp: a slot at a time.
fn any_single(slab: &ring::Slab, first: usize, count: usize) -> bool
    requires { first + count ≤ slab.now.slots }
    ensures { result ≡ any_stamp slab.now.bytes.now first count }
{
    for slot in first..first + count {
        let t = slab.stamp(slot);
        if t != 0 {
            return true;
        }
    }
    false
}

// The same, eight slots at a time, and the rest one by one: two instructions a slot in place of five.
fn any_stamp(slab: &ring::Slab, first: usize, count: usize) -> bool
    requires { first + count ≤ slab.now.slots }
    ensures { result ≡ any_stamp slab.now.bytes.now first count }
{
    let groups = count / 8;
    for group in 0..groups {
        let eight = ring_joined::eight(slab, first + 8 * group);
        if eight != 0 {
            return true;
        }
    }
    any_single(slab, first + 8 * groups, count % 8)
}

// The flag of a slab: some slot above the cursor has a nonzero stamp.
pub fn wrap_flag(slab: &ring::Slab) -> bool
    ensures { result ≡ wrap_flag slab.now.bytes.now }
{
    let cursor = slab.cursor();
    let first = cursor + 1;
    any_stamp(slab, first, slab.slots - first)
}

// The flags of an image's rows worked out.
fn flags_of(table: &rows::Table, wrapped: [bool; 32]) -> model::Flags
    requires { (open_check table.now.bytes.now ≡ 0) × (table.now.count ≡ get 4 table.now.bytes.now 12) }
    ensures { result.wrapped ≡ wrap_flags table.now.bytes.now (rows_to table.now.bytes.now table.now.count 0) ++ drop table.now.count wrapped }
{
    let mut next = wrapped;
    for i in 0..table.count {
        let r = table.row(i);
        let offset = r.offset as usize;
        let end = offset + (r.len as usize);
        let slab = ring::Slab {
            bytes: &table.bytes[offset..end],
            slots: layout::row_slots(r) as usize,
            series: r.series as usize,
        };
        let flag = wrap_flag(&slab);
        next[i] = flag;
    }
    model::Flags { wrapped: next }
}

// An image in a lent slice, with flags by value.
pub fn open(image: &[u8], flags: model::Flags) -> model::Called<Result<(), model::Refusal>>
    ensures { (outcome_no result.answer ≡ open_check image.now) × (lent image.now result.flags ≡ opening (lent image.now flags)) }
{
    let checked = image_checked::check_image(image);
    let Ok(()) = checked else {
        return model::Called {
            answer: checked,
            flags,
        };
    };
    let table = rows::Table::of(image);
    let wrapped = flags.wrapped;
    let next = flags_of(&table, wrapped);
    model::Called {
        answer: checked,
        flags: next,
    }
}
