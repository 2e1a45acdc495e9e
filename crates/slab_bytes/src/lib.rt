// A slab: the check of its header against its row (10 CorruptedSlab), and a fresh one. The fills are compiled to wide stores.
#![tactic(auto)]

ghost use Rattle.std.specs.Prelude.{◌≡◌, ◌+◌, ◌-◌, ◌*◌, ◌≤◌, length, replicate};
ghost use Rattle.model.specs.Bytes.{bytes, splice};
ghost use Rattle.model.specs.Layout.{copies, fresh_value, fresh_head, fresh_slab, slab_length};
ghost use Rattle.model.specs.Image.{sound_fields, sound};

// A slab's header by its fields, for a row with n slots.
fn fields_sound(
    r: model::Row,
    n: u64,
    magic: u64,
    version: u64,
    hash: u64,
    slots: u64,
    series: u64,
    interval: u64,
    cursor: u64,
) -> bool
    ensures { result ≡ sound_fields r n magic version hash slots series interval cursor }
{
    (magic == format::RNDO)
        & (version == format::VERSION)
        & (hash == r.hash)
        & (slots == n)
        & (series == (r.series as u64))
        & (interval == r.interval)
        & (cursor < n)
}

// The slab's header suits the row.
pub fn is_sound(slab: &[u8], r: model::Row) -> bool
    requires { 64 ≤ length slab.now }
    ensures { result ≡ sound r slab.now }
{
    let n = layout::row_slots(r);
    let magic = field::get_u32(slab, format::SLAB_MAGIC);
    let version = field::get_u32(slab, format::SLAB_VERSION);
    let hash = field::get_u64(slab, format::SLAB_HASH);
    let slots = field::get_u32(slab, format::SLAB_SLOTS);
    let series = field::get_u32(slab, format::SLAB_SERIES);
    let interval = field::get_u64(slab, format::SLAB_INTERVAL);
    let cursor = field::get_u32(slab, format::SLAB_CURSOR);
    fields_sound(r, n, magic, version, hash, slots, series, interval, cursor)
}

// b in every byte from `from` on, below `end`.
pub fn fill(s: &mut [u8], from: usize, end: usize, b: u8)
    requires { (from ≤ end) × (end ≤ length s.old) }
    ensures { s.new ≡ splice s.old from (replicate (end - from) b) }
{
    s[from..end].fill(b);
}

// The fresh value in `count` cells from `from` on.
pub fn fill_cells(s: &mut [u8], from: usize, count: usize)
    requires { from + 8 * count ≤ length s.old }
    ensures { s.new ≡ splice s.old from (copies count (bytes 8 fresh_value)) }
{
    for i in 0..count {
        field::put_u64(s, from + 8 * i, format::FRESH);
    }
}

fn fresh_head(slab: &mut [u8], hash: u64, n: u64, m: u64, interval: u64)
    requires { 64 ≤ length slab.old }
    ensures { slab.new ≡ splice slab.old 0 (fresh_head hash n m interval) }
{
    field::put_u32(slab, format::SLAB_MAGIC, format::RNDO);
    field::put_u32(slab, format::SLAB_VERSION, format::VERSION);
    field::put_u64(slab, format::SLAB_HASH, hash);
    field::put_u32(slab, format::SLAB_SLOTS, n);
    field::put_u32(slab, format::SLAB_SERIES, m);
    field::put_u64(slab, format::SLAB_INTERVAL, interval);
    fill(slab, format::SLAB_CURSOR, format::SLAB_HEADER, 0);
}

// A fresh slab with n slots and m series.
pub fn fresh_slab(slab: &mut [u8], hash: u64, n: u64, m: u64, interval: u64)
    requires { length slab.old ≡ slab_length n m }
    ensures { slab.new ≡ fresh_slab hash n m interval }
{
    let stamps = format::stamps_at(m as usize);
    let cells = stamps + 8 * (n as usize);
    let count = (n * m) as usize;
    fresh_head(slab, hash, n, m, interval);
    fill(slab, format::SLAB_HEADER, stamps, 255);
    fill(slab, stamps, cells, 0);
    fill_cells(slab, cells, count);
}
