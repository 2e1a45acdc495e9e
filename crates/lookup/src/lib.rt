// What a call finds in the image and flags that it is lent, once opening's check has passed: the row of a schema's finest tier (11 InvalidHandle), a row's
// slab with its sizes, whether a stamp is old in its ring (18 OldSample), a row's flag. Record, query and consolidation go from a handle to a slab by these.
#![tactic(auto)]

ghost use Rattle.std.specs.Prelude.{◌≡◌, false, ◌+◌, ◌<◌, ◌≤◌, get_or, IfOk, IfErr};
ghost use Rattle.model.specs.Words.{number_of};
ghost use Rattle.model.specs.Bytes.{get};
ghost use Rattle.model.specs.Image.{row_count, row_place, row_at, rows, slab_of, open_check};
ghost use Rattle.model.specs.Ring.{is_old};
ghost use Rattle.model.specs.Lent.{first_row};
ghost use Rattle.lookup.specs.Parts.{SlabAt, finest_of, with_flag};

// Where a row's slab stands in the image, and its sizes.
#[derive(Clone, Copy)]
pub struct Slab {
    pub from: usize,
    pub to: usize,
    pub sizes: ring::Sizes,
}

// An image that opening's check has passed.
#[derive(Clone, Copy)]
pub struct Image<'a> {
    pub bytes: &'a [u8],
    pub ghost good: { open_check bytes.now ≡ 0 },
}

impl<'a> Image<'a> {
    // A slice as an image, or its refusal.
    pub fn checked(bytes: &'a [u8]) -> Result<Self, model::Refusal>
        ensures opened { IfOk result (λ image. image.bytes.now ≡ bytes.now) }
        ensures refused { IfErr result (λ refusal. number_of refusal ≡ open_check bytes.now) }
    {
        image_checked::check_image(bytes)?;
        Ok(Image { bytes })
    }

    // A u32 of a row, `at` bytes behind its start.
    fn row_u32(&self, row: usize, at: usize) -> u64
        requires { (row < row_count self.now.bytes.now) × (at ≤ 60) }
        ensures { (result ≡ get 4 self.now.bytes.now (row_place row + at)) × (result < 4294967296) }
    {
        field::get_u32(self.bytes, format::HEADER + format::ROW * row + at)
    }

    // A u64 of a row, `at` bytes behind its start.
    fn row_u64(&self, row: usize, at: usize) -> u64
        requires { (row < row_count self.now.bytes.now) × (at ≤ 56) }
        ensures { result ≡ get 8 self.now.bytes.now (row_place row + at) }
    {
        field::get_u64(self.bytes, format::HEADER + format::ROW * row + at)
    }

    // A row's slab.
    pub fn slab_at(&self, row: usize) -> Slab
        requires { row < row_count self.now.bytes.now }
        ensures { SlabAt self.now.bytes.now row result.from result.to result.sizes.slots result.sizes.series result.sizes.interval }
    {
        let interval = self.row_u64(row, format::ROW_INTERVAL);
        let series = self.row_u32(row, format::ROW_SERIES) as usize;
        let from = self.row_u64(row, format::ROW_OFFSET) as usize;
        let len = self.row_u64(row, format::ROW_LENGTH) as usize;
        let slots = field::get_u32(self.bytes, from + format::SLAB_SLOTS) as usize;
        let sizes = ring::Sizes {
            slots,
            series,
            interval,
        };
        Slab {
            from,
            to: from + len,
            sizes,
        }
    }

    // Whether a stamp is below the one that its slot in a row's ring holds.
    pub fn is_old(&self, row: usize, stamp: u64) -> bool
        requires { row < row_count self.now.bytes.now }
        ensures { result ≡ is_old (slab_of self.now.bytes.now (row_at self.now.bytes.now row)) stamp }
    {
        let slab = self.slab_at(row);
        let from = slab.from;
        let to = slab.to;
        let z = slab.sizes;
        ring::is_old(&self.bytes[from..to], z, stamp)
    }

    // The first row of a schema; the number of rows where none has it.
    pub fn first_row(&self, schema: u64) -> usize
        ensures { (result ≡ first_row schema (rows self.now.bytes.now)) × (result ≤ row_count self.now.bytes.now) }
    {
        let count = field::get_u32(self.bytes, format::HEADER_ROWS) as usize;
        for i in 0..count {
            let s = self.row_u32(i, format::ROW_SCHEMA);
            if s == schema {
                return i;
            }
        }
        count
    }

    // The row of a handle's finest tier. An image in good order has a row, so the loop reads and asks the count after its first turn.
    pub fn finest_row(&self, schema: u64, column: u64) -> Option<usize>
        ensures { result ≡ finest_of self.now.bytes.now schema column }
    {
        // No `for`: with the count read first a query with three rows takes 385 instructions in place of 377, a batch of 64 2983 in place of 2785.
        let mut i = 0;
        loop {
            let s = self.row_u32(i, format::ROW_SCHEMA);
            if s == schema {
                let series = self.row_u32(i, format::ROW_SERIES);
                if column >= series {
                    return None;
                }
                return Some(i);
            }
            i += 1;
            let count = field::get_u32(self.bytes, format::HEADER_ROWS) as usize;
            if i == count {
                return None;
            }
        }
    }
}

// A row's flag.
pub fn flag(flags: model::Flags, row: usize) -> bool
    requires { row < 32 }
    ensures { result ≡ get_or flags.wrapped row false }
{
    flags.wrapped[row]
}

// The flags with a row's flag set.
pub fn with_flag(flags: model::Flags, row: usize, wrapped: bool) -> model::Flags
    requires { row < 32 }
    ensures { result ≡ with_flag flags row wrapped }
{
    let mut next = flags;
    next.wrapped[row] = wrapped;
    next
}
