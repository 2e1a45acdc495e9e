// The ring of one slab, read: where stamps and cells stand; the stamp, the cell and the cursor; the slot of a stamp and the next slot; whether a stamp is
// old; the place where a reading starts (Rust's ring.rs). A slab is lent as its own slice; n slots and m series are what its header says (`Sized`), which
// the type `Slab` keeps.
#![tactic(auto)]

ghost use Rattle.std.specs.Prelude.{◌≡◌, suc, ◌+◌, ◌*◌, ◌/◌, ◌%◌, ◌<◌, ◌≤◌, ◌^◌};
ghost use Rattle.model.specs.Layout.{slab_length, stamps_at, column_at};
ghost use Rattle.model.specs.Ring.{cursor, stamp, cell, is_old, first_place};
ghost use Rattle.ring_theory.specs.Sound.{Sound};
ghost use Rattle.ring.specs.Parts.{Sized, ring_of};

// The sizes of a slab: its slots, its series, its interval.
#[derive(Clone, Copy)]
pub struct Sizes {
    pub slots: usize,
    pub series: usize,
    pub interval: u64,
}

// One slab, read: its bytes, and the slots and series that its header says.
#[derive(Clone, Copy)]
pub struct Slab<'a> {
    pub bytes: &'a [u8],
    pub slots: usize,
    pub series: usize,
    ghost sized: { Sized bytes.now slots series },
}

// Where a slot's stamp stands.
pub fn stamp_place(n: usize, m: usize, slot: usize) -> usize
    requires { (slot < n) × (slab_length n m < 2 ^ 63) }
    ensures { (result ≡ stamps_at m + 8 * slot) × (result + 8 ≤ slab_length n m) }
{
    format::stamps_at(m) + 8 * slot
}

// Where the cell of a column in a slot stands.
pub fn cell_place(n: usize, m: usize, column: usize, slot: usize) -> usize
    requires { (slot < n) × (column < m) × (slab_length n m < 2 ^ 63) }
    ensures { (result ≡ column_at n m column + 8 * slot) × (result + 8 ≤ slab_length n m) }
{
    format::stamps_at(m) + 8 * (n * (column + 1) + slot)
}

impl<'a> Slab<'a> {
    // A slot's stamp.
    pub fn stamp(&self, slot: usize) -> u64
        requires { slot < self.now.slots }
        ensures { result ≡ stamp self.now.bytes.now slot }
    {
        let at = stamp_place(self.slots, self.series, slot);
        field::get_u64(self.bytes, at)
    }

    // The cell of a column in a slot.
    pub fn cell(&self, column: usize, slot: usize) -> u64
        requires { (slot < self.now.slots) × (column < self.now.series) }
        ensures { result ≡ cell self.now.bytes.now column slot }
    {
        let at = cell_place(self.slots, self.series, column, slot);
        field::get_u64(self.bytes, at)
    }

    // The cursor.
    pub fn cursor(&self) -> usize
        ensures { (result ≡ cursor self.now.bytes.now) × (result < self.now.slots) }
    {
        field::get_u32(self.bytes, format::SLAB_CURSOR) as usize
    }

    // Where a reading starts, and over how many slots it goes.
    pub fn first_place(&self, wrapped: bool) -> model::Place
        ensures { (result ≡ first_place (ring_of self.now.bytes.now wrapped)) × (result.slot < self.now.slots) × (result.left ≤ self.now.slots) }
    {
        let cursor = self.cursor();
        let newest = self.stamp(cursor);
        if newest == 0 {
            return model::Place { slot: 0, left: 0 };
        }
        if wrapped {
            let slot = next_slot(self.slots, cursor);
            return model::Place {
                slot,
                left: self.slots,
            };
        }
        model::Place {
            slot: 0,
            left: cursor + 1,
        }
    }
}

// The slot after a slot, round the ring.
pub fn next_slot(n: usize, slot: usize) -> usize
    requires { slot < n }
    ensures { (result ≡ suc slot % n) × (result < n) }
{
    let next = slot + 1;
    if next < n {
        return next;
    }
    0
}

// The slot of a stamp.
pub fn slot_of(stamp: u64, interval: u64, n: usize) -> usize
    requires { (0 < interval) × (0 < n) }
    ensures { (result ≡ stamp / interval % n) × (result < n) }
{
    (stamp / interval % (n as u64)) as usize
}

// Whether a stamp is below the one that its slot holds.
pub fn is_old(slab: &[u8], z: Sizes, stamp: u64) -> bool
    requires sound { Sound slab.now z.slots z.series z.interval }
    requires interval_nonzero { 0 < z.interval }
    ensures { result ≡ is_old slab.now stamp }
{
    let slot = slot_of(stamp, z.interval, z.slots);
    let ring = Slab {
        bytes: slab,
        slots: z.slots,
        series: z.series,
    };
    let held = ring.stamp(slot);
    stamp < held
}
