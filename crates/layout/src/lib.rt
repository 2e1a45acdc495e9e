// Where slabs stand and how long they are, worked out from slots and series: a slab's length, the image's length (8 LayoutTooLarge), and the test that
// a table of contents says the same (1 BadImage). A length above 2^40 is given as 2^40 + 1: it is found out before it is multiplied.
#![tactic(auto)]

ghost use Rattle.std.specs.Prelude.{◌≡◌, ◌+◌, ◌*◌, ◌<◌, ◌≤◌, length};
ghost use Rattle.model.specs.Layout.{slab_length};
ghost use Rattle.model.specs.Image.{row_slots, row_length, slabs_end, placed};
ghost use Rattle.rows.specs.Rows.{rows_to};
ghost use Rattle.layout.specs.Ends.{capped};

// The longest image, 2^40, and what stands for a longer one.
pub const LIMIT: u64 = format::LONGEST;

pub const TOO_LONG: u64 = format::LONGEST + 1;

// As many words of eight bytes as the longest image has room for.
const WORDS: u64 = format::LONGEST / 8;

// How many slots a row has; none where the interval is 0.
pub fn row_slots(r: model::Row) -> u64
    ensures { result ≡ row_slots r }
{
    let interval = r.interval;
    let retention = r.retention;
    if interval == 0 {
        return 0;
    }
    retention / interval
}

// The length of a slab with n slots and m series.
pub fn slab_length(n: u64, m: u64) -> u64
    requires { m < 4294967296 }
    ensures { result ≡ capped (slab_length n m) }
{
    let lists = m + 1;
    if n > WORDS / lists {
        return TOO_LONG;
    }
    let l = format::stamps_at(m as usize) as u64 + 8 * (n * lists);
    if l > LIMIT {
        return TOO_LONG;
    }
    l
}

// The length of a row's slab.
pub fn row_length(r: model::Row) -> u64
    ensures { result ≡ capped (row_length r) }
{
    let n = row_slots(r);
    slab_length(n, r.series as u64)
}

// The length of the image with these rows.
pub fn image_length(table: &rows::Table) -> u64
    requires { table.now.count ≤ 32 }
    ensures { result ≡ capped (slabs_end (32 + 64 * table.now.count) (rows_to table.now.bytes.now table.now.count 0)) }
{
    let mut at: u64 = format::HEADER as u64 + format::ROW as u64 * (table.count as u64);
    for i in 0..table.count {
        let r = table.row(i);
        let l = row_length(r);
        if l > LIMIT - at {
            return TOO_LONG;
        }
        at += l;
    }
    at
}

// Each row's offset and slab length are the right ones.
pub fn is_placed(table: &rows::Table) -> bool
    requires few { table.now.count ≤ 32 }
    requires ends_low { slabs_end (32 + 64 * table.now.count) (rows_to table.now.bytes.now table.now.count 0) ≤ 1099511627776 }
    ensures { result ≡ placed (32 + 64 * table.now.count) (rows_to table.now.bytes.now table.now.count 0) }
{
    let mut good = true;
    let mut at: u64 = format::HEADER as u64 + format::ROW as u64 * (table.count as u64);
    for i in 0..table.count {
        let r = table.row(i);
        let l = row_length(r);
        good &= (r.offset == at) & (r.len == l);
        at += l;
    }
    good
}
