// A ring's writers: one value, and a batch of values (Rust's `write` and `write_batch` of ring.rs). Both store the stamp in its slot, then cells, then the
// cursor, and answer the flag. A slab is lent as its own slice and stays in good order (`Sound`).
#![tactic(auto)]

ghost use Rattle.std.specs.Prelude.{◌≡◌, ◌||◌, ◌+◌, ◌*◌, ◌<◌, ◌≤◌, ltb, length};
ghost use Rattle.model.specs.Bytes.{get, put};
ghost use Rattle.model.specs.Ring.{interval, put_cells, write};
ghost use Rattle.model.specs.Record.{entries, entries_of};
ghost use Rattle.ring_theory.specs.Sound.{Sound};
ghost use Rattle.ring.specs.Parts.{Sized, ring_of, one};
ghost use Rattle.ring_write.specs.Stored.{Stamp, Columns};

// The slot that a stamp was stored in, and the flag after the write.
#[derive(Clone, Copy)]
struct Stamped {
    slot: usize,
    wrapped: bool,
}

// The flag after a write to a slot.
fn flag_after(wrapped: bool, slot: usize, cursor: usize) -> bool
    ensures { result ≡ (wrapped || ltb slot cursor) }
{
    if wrapped {
        return true;
    }
    slot < cursor
}

// Stores the stamp.
fn write_stamp(slab: &mut [u8], z: ring::Sizes, stamp: u64, wrapped: bool) -> Stamped
    requires sound { Sound slab.old z.slots z.series z.interval }
    requires interval_nonzero { 0 < z.interval }
    ensures { Stamp slab.old z.slots z.series z.interval stamp wrapped result.slot result.wrapped slab.new }
{
    let slot = ring::slot_of(stamp, z.interval, z.slots);
    let before = ring::Slab {
        bytes: slab,
        slots: z.slots,
        series: z.series,
    };
    let cursor = before.cursor();
    let flag = flag_after(wrapped, slot, cursor);
    let at = ring::stamp_place(z.slots, z.series, slot);
    field::put_u64(slab, at, stamp);
    Stamped {
        slot,
        wrapped: flag,
    }
}

// Stores a value in the cell of a column in a slot.
fn write_cell(slab: &mut [u8], z: ring::Sizes, column: usize, slot: usize, value: u64)
    requires sized { Sized slab.old z.slots z.series }
    requires slot_lt_slots { (slot < z.slots) × (column < z.series) }
    ensures { (slab.new ≡ put_cells slab.old slot (one column value)) × Sound slab.new z.slots z.series (interval slab.old) }
{
    let at = ring::cell_place(z.slots, z.series, column, slot);
    field::put_u64(slab, at, value);
}

// An entry of a batch, by its fields.
#[derive(Clone, Copy)]
pub struct Entry {
    pub schema: u64,
    pub column: u64,
    pub value: u64,
}

// Entry i of a batch.
pub fn entry_at(batch: &[u8], i: usize) -> Entry
    requires { 16 * i + 16 ≤ length batch.now }
    ensures handle { (result.schema ≡ get 4 batch.now (16 * i)) × (result.column ≡ get 4 batch.now (16 * i + 4)) }
    ensures in_range { (result.schema < 4294967296) × (result.column < 4294967296) }
    ensures value { result.value ≡ get 8 batch.now (16 * i + 8) }
{
    let at = format::ENTRY * i;
    Entry {
        schema: field::get_u32(batch, at),
        column: field::get_u32(batch, at + format::ENTRY_COLUMN),
        value: field::get_u64(batch, at + format::ENTRY_VALUE),
    }
}

// Stores the values that a batch has for a schema, in order.
fn write_cells(slab: &mut [u8], z: ring::Sizes, slot: usize, batch: &[u8], schema: u64)
    requires sized { Sized slab.old z.slots z.series }
    requires slot_lt_slots { (slot < z.slots) × Columns z.series (entries_of schema (entries batch.now)) }
    ensures { slab.new ≡ put_cells slab.old slot (entries_of schema (entries batch.now)) }
{
    let count = batch.len() / format::ENTRY;
    for i in 0..count {
        let entry = entry_at(batch, i);
        if entry.schema != schema {
            continue;
        }
        write_cell(slab, z, entry.column as usize, slot, entry.value);
    }
}

// Moves the cursor to a slot: it always moves, since a slot below it sets the flag.
fn write_cursor(slab: &mut [u8], slot: usize)
    requires { 64 ≤ length slab.old }
    ensures { slab.new ≡ put 4 slab.old 32 slot }
{
    field::put_u32(slab, format::SLAB_CURSOR, slot as u64);
}

// Stores one value: stamp, cell, cursor. Answers the flag.
pub fn write(
    slab: &mut [u8],
    z: ring::Sizes,
    column: usize,
    value: u64,
    stamp: u64,
    wrapped: bool,
) -> bool
    requires sound { Sound slab.old z.slots z.series z.interval }
    requires interval_nonzero { (0 < z.interval) × (column < z.series) }
    ensures { (ring_of slab.new result ≡ write (ring_of slab.old wrapped) (one column value) stamp) × Sound slab.new z.slots z.series z.interval }
{
    let t = write_stamp(slab, z, stamp, wrapped);
    let slot = t.slot;
    write_cell(slab, z, column, slot, value);
    write_cursor(slab, slot);
    t.wrapped
}

// Stores the values that a batch has for a schema: stamp, cells, cursor. Answers the flag. With no entries it stores the stamp.
pub fn write_batch(
    slab: &mut [u8],
    z: ring::Sizes,
    batch: &[u8],
    schema: u64,
    stamp: u64,
    wrapped: bool,
) -> bool
    requires sound { Sound slab.old z.slots z.series z.interval }
    requires interval_nonzero { (0 < z.interval) × Columns z.series (entries_of schema (entries batch.now)) }
    ensures { (ring_of slab.new result ≡ write (ring_of slab.old wrapped) (entries_of schema (entries batch.now)) stamp) × Sound slab.new z.slots z.series z.interval }
{
    let t = write_stamp(slab, z, stamp, wrapped);
    let slot = t.slot;
    write_cells(slab, z, slot, batch, schema);
    write_cursor(slab, slot);
    t.wrapped
}
