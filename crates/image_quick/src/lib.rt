// A quick pass over header, rows and slab headers that only says "all good": then opening's check passes. Where it does not say so, the plain check in document
// 01's order decides. So it may leave rare shapes to the plain check: a slab of 2^27 slots or more and a tier that holds 137 years or more, so that no product
// can wrap and no row is divided, and an image of 2^40 bytes. Two fields that stand side by side are read as one word (`two_u32`), and what the rows of a schema share is carried from row to
// row (`Shared`). A store of one schema with at most four rows has a loop of its own (`few_good`), which the compiler writes out row by row. `check` asks this
// pass, then the plain check.
#![tactic(auto)]

ghost use Rattle.std.specs.Prelude.{◌≡◌, ◌+◌, ◌*◌, ◌^◌, ◌<◌, ◌≤◌, true, length};
ghost use Rattle.model.specs.Image.{schemas, row_count, open_check};
ghost use Rattle.image_quick.specs.Seen.{TwoAt, Head, Known, IfGood, Begun, Followed, Joined, Only, NextTier, Low, Slotted, Timed, Slab, Here, Begins, Early, Ends, Counted, All};

// A magic word and the version behind it, as one number.
const RSTO: u64 = format::RSTO + 0x1_0000_0000 * format::VERSION;

const RNDO: u64 = format::RNDO + 0x1_0000_0000 * format::VERSION;

// Where the second row stands.
const SECOND: usize = format::HEADER + format::ROW;

// An image has a header, rows and a slab's header at least: this is its length without the rows.
const LEAST: usize = format::HEADER + format::SLAB_HEADER;

// Where the first row's slab length stands.
const FIRST_LENGTH: usize = format::HEADER + format::ROW_LENGTH;

// From a row on, where fields of the next row stand.
const NEXT_INTERVAL: usize = format::ROW + format::ROW_INTERVAL;

const NEXT_FUNCTION: usize = format::ROW + format::ROW_FUNCTION;

const NEXT_HASH: usize = format::ROW + format::ROW_HASH;

// Where the upper half of a slab's interval stands.
const UPPER: usize = format::SLAB_INTERVAL + 4;

// The last function's number.
const FUNCTIONS: u64 = format::FUNCTIONS as u64;

// Two u32 that stand side by side, as one number: the second counts 2^32. One load; the first is read by itself for its bound alone.
fn two_u32(s: &[u8], at: usize) -> u64
    requires { at + 8 ≤ length s.now }
    ensures { TwoAt s.now at result }
{
    let _low = field::get_u32(s, at);
    field::get_u64(s, at)
}

// The header, but for the number of its rows. Its length is below 2^40 where no bit of it stands higher: asked with the word that is 0, in one test.
fn head_good(s: &[u8]) -> bool
    ensures { result ≡ true → Head s.now }
{
    if s.len() < LEAST {
        return false;
    }
    let named = two_u32(s, format::HEADER_MAGIC);
    if named != RSTO {
        return false;
    }
    let total = field::get_u64(s, format::HEADER_TOTAL);
    if total > (s.len() as u64) {
        return false;
    }
    let zero = field::get_u64(s, format::HEADER_ZERO);
    if (total / format::LONGEST) | zero != 0 {
        return false;
    }
    let n = field::get_u32(s, format::HEADER_ROWS);
    total >= LEAST as u64 + format::ROW as u64 * n
}

// What the rows of a schema share: their series, the same times 2^32, and their hash.
#[derive(Clone, Copy)]
pub struct Shared {
    series: u64,
    high: u64,
    hash: u64,
}

// Row i is the first of schema k.
fn starts(s: &[u8], i: usize, k: u64) -> Option<Shared>
    requires { (32 + 64 * i + 64 ≤ length s.now) × (k < 4294967296) }
    ensures { IfGood (Begun s.now i k) result }
{
    let at = format::HEADER + format::ROW * i;
    let w = two_u32(s, at);
    if w != k {
        return None;
    }
    if field::get_u32(s, at + format::ROW_FUNCTION) != 0 {
        return None;
    }
    let m = field::get_u32(s, at + format::ROW_SERIES);
    if m == 0 {
        return None;
    }
    let hash = field::get_u64(s, at + format::ROW_HASH);
    let p = Shared {
        series: m,
        high: 0x1_0000_0000 * m,
        hash,
    };
    Some(p)
}

// Row i + 1 shares what row i shares, and has a longer interval.
fn follows(s: &[u8], i: usize, p: Shared) -> Option<Shared>
    requires { (32 + 64 * i + 128 ≤ length s.now) × Known s.now i p }
    ensures { IfGood (Followed s.now i) result }
{
    let at = format::HEADER + format::ROW * i;
    let x = two_u32(s, at + NEXT_FUNCTION);
    let function = std::num::wrapping_sub_u64(x, p.high);
    if function > FUNCTIONS {
        return None;
    }
    if field::get_u64(s, at + NEXT_HASH) != p.hash {
        return None;
    }
    if field::get_u64(s, at + format::ROW_INTERVAL) >= field::get_u64(s, at + NEXT_INTERVAL) {
        return None;
    }
    Some(p)
}

// Row i + 1 may stand right after row i: as the next tier, or as the first row of the next schema.
fn joins(s: &[u8], i: usize, p: Shared) -> Option<Shared>
    requires { (32 + 64 * i + 128 ≤ length s.now) × (i ≤ 32) × Early s.now i × Known s.now i p }
    ensures { IfGood (Joined s.now i) result }
{
    let at = format::HEADER + format::ROW * i;
    let w = two_u32(s, at);
    let x = two_u32(s, at + format::ROW);
    if x == w + 0x1_0000_0000 {
        return follows(s, i, p);
    }
    let k = field::get_u32(s, at) + 1;
    starts(s, i + 1, k)
}

// Row i + 1 may stand right after row i as the next tier, where all rows are of schema 0.
fn next_tier(s: &[u8], i: usize, p: Shared) -> Option<Shared>
    requires { (32 + 64 * i + 128 ≤ length s.now) × (i ≤ 32) × Only s.now i × Known s.now i p }
    ensures { IfGood (NextTier s.now i) result }
{
    let x = two_u32(s, SECOND + format::ROW * i);
    if x != 0x1_0000_0000 * (i as u64 + 1) {
        return None;
    }
    follows(s, i, p)
}

// n slots of an interval, and one more, hold less than 2^63 ns: by the interval's upper half, `high`.
fn is_low(n: u64, high: u64) -> bool
    requires { (0 < n) × (n < 134217728) × (high < 4294967296) }
    ensures { result ≡ true → Low n high }
{
    high * n < 0x3c00_0000
}

// n slots of an interval, which cannot wrap, are what a retention has.
fn slots_good(n: u64, interval: u64, retention: u64) -> bool
    requires { n * interval + interval < 2 ^ 63 }
    ensures { result ≡ true → Slotted n interval retention }
{
    let rest = std::num::wrapping_sub_u64(retention, n * interval);
    rest < interval
}

// The slab at `at` has a row's interval, and n slots are what the row has. The interval's upper half is read and asked before the whole:
// one load in place of a copy and a shift.
fn timed_good(s: &[u8], at: usize, r: model::Row, n: u64) -> bool
    requires { (at + 64 ≤ length s.now) × (0 < n) × (n < 134217728) }
    ensures { result ≡ true → Timed s.now at r n }
{
    let high = field::get_u32(s, at + UPPER);
    let low = is_low(n, high);
    if !low {
        return false;
    }
    let interval = r.interval;
    let x = two_u32(s, at + format::SLAB_INTERVAL);
    if x != interval {
        return false;
    }
    slots_good(n, interval, r.retention)
}

// The slab at `at` is a row's, which shares p.
fn slab_good(s: &[u8], at: usize, r: model::Row, p: Shared) -> bool
    requires { (at + 64 ≤ length s.now) × (p.series < 4294967296) × (p.high ≡ 4294967296 * p.series) }
    ensures { result ≡ true → Slab s.now at r p.series p.hash }
{
    let named = two_u32(s, at);
    if named != RNDO {
        return false;
    }
    if field::get_u64(s, at + format::SLAB_HASH) != p.hash {
        return false;
    }
    let y = two_u32(s, at + format::SLAB_SLOTS);
    let n = std::num::wrapping_sub_u64(y, p.high);
    if n >= 0x800_0000 {
        return false;
    }
    if field::get_u32(s, at + format::SLAB_CURSOR) >= n {
        return false;
    }
    let stamps = format::stamps_at(p.series as usize) as u64;
    if r.len != n * (8 * p.series + 8) + stamps {
        return false;
    }
    timed_good(s, at, r, n)
}

// Row i, which shares p, and whose slab stands at `at`.
fn place_good(s: &[u8], i: usize, at: usize, p: Shared) -> bool
    requires { (32 + 64 * i + 64 ≤ length s.now) × (at + 64 ≤ length s.now) × Known s.now i p }
    ensures { result ≡ true → Here s.now i at }
{
    let r = rows::row_at(s, i);
    if r.offset != (at as u64) {
        return false;
    }
    if r.mark >= format::TOP {
        return false;
    }
    slab_good(s, at, r, p)
}

// An image by its header: `count` rows, and room for a slab's header behind them up to `total`, where the image ends.
#[derive(Clone, Copy)]
struct Span<'a> {
    bytes: &'a [u8],
    count: usize,
    total: usize,
    ghost counted: { count ≡ row_count bytes.now },
    ghost room: { 96 + 64 * count ≤ total },
    ghost inside: { total ≤ length bytes.now },
    ghost low: { total ≤ 1099511627776 },
}

// The first row is the first of schema 0, and its slab stands right behind the rows.
fn begins(span: &Span) -> Option<Shared>
    ensures { IfGood (Begins span.now.bytes.now (32 + 64 * span.now.count)) result }
{
    let p = starts(span.bytes, 0, 0)?;
    let here = place_good(span.bytes, 0, format::HEADER + format::ROW * span.count, p);
    if !here {
        return None;
    }
    Some(p)
}

// The last row, i, is of the last schema.
fn ends(s: &[u8], i: usize) -> bool
    requires { 32 + 64 * i + 64 ≤ length s.now }
    ensures { result ≡ true → Ends s.now i }
{
    let schemas = field::get_u32(s, format::HEADER_SCHEMAS);
    if schemas > format::SCHEMAS {
        return false;
    }
    let last = field::get_u32(s, format::HEADER + format::ROW * i);
    schemas == last + 1
}

// The rows, the first of which is good, each join the row before, from schema 0 to the last, and their slabs stand one behind the other, up to `total`.
fn rows_good(span: &Span, first: Shared) -> bool
    requires counted { Counted span.now.count }
    requires begins { Begins span.now.bytes.now (32 + 64 * span.now.count) first }
    ensures { result ≡ true → All span.now.bytes.now span.now.count span.now.total }
{
    let Span {
        bytes: s,
        count: n,
        total,
    } = *span;
    let last = total - format::SLAB_HEADER;
    let mut p = first;
    let mut at = format::HEADER + format::ROW * n;
    for i in 0..n - 1 {
        at += field::get_u64(s, FIRST_LENGTH + format::ROW * i) as usize;
        if at > last {
            return false;
        }
        let next = joins(s, i, p);
        let Some(q) = next else {
            return false;
        };
        p = q;
        let here = place_good(s, i + 1, at, p);
        if !here {
            return false;
        }
    }
    at += field::get_u64(s, FIRST_LENGTH + format::ROW * (n - 1)) as usize;
    let ended = ends(s, n - 1);
    ended & (at == total)
}

// The rows, at most four, the first of which is good, are the tiers of the only schema, and their slabs stand one behind the other, up to `total`. The loop's
// turns are so few that the compiler writes them out.
fn few_good(span: &Span, first: Shared) -> bool
    requires few { (0 < span.now.count) × (span.now.count ≤ 4) }
    requires begins { Begins span.now.bytes.now (32 + 64 * span.now.count) first × (schemas span.now.bytes.now ≡ 1) }
    ensures { result ≡ true → All span.now.bytes.now span.now.count span.now.total }
{
    let Span {
        bytes: s,
        count: n,
        total,
    } = *span;
    let top = total - format::SLAB_HEADER;
    let mut p = first;
    let mut at = format::HEADER + format::ROW * n + field::get_u64(s, FIRST_LENGTH) as usize;
    for i in 0..3 {
        if i + 1 == n {
            return at == total;
        }
        if at > top {
            return false;
        }
        let next = next_tier(s, i, p);
        let Some(q) = next else {
            return false;
        };
        p = q;
        let here = place_good(s, i + 1, at, p);
        if !here {
            return false;
        }
        at += field::get_u64(s, FIRST_LENGTH + format::ROW * (i + 1)) as usize;
    }
    at == total
}

// The rows, the first of which is good, whatever their number and their schemas.
fn many_good(span: &Span, first: Shared) -> bool
    requires { Begins span.now.bytes.now (32 + 64 * span.now.count) first }
    ensures { result ≡ true → Counted span.now.count × All span.now.bytes.now span.now.count span.now.total }
{
    if span.count == 0 {
        return false;
    }
    if span.count > format::ROWS as usize {
        return false;
    }
    rows_good(span, first)
}

// All good: opening's check passes. Whether the rows are one to four is asked before their number's bounds, which it has then.
fn is_good(s: &[u8]) -> bool
    ensures { result ≡ true → open_check s.now ≡ 0 }
{
    let headed = head_good(s);
    if !headed {
        return false;
    }
    let n = field::get_u32(s, format::HEADER_ROWS) as usize;
    let total = field::get_u64(s, format::HEADER_TOTAL) as usize;
    let span = Span {
        bytes: s,
        count: n,
        total,
    };
    let begun = begins(&span);
    let Some(first) = begun else {
        return false;
    };
    if 0 < n {
        if n <= 4 {
            let schemas = field::get_u32(s, format::HEADER_SCHEMAS);
            if schemas == 1 {
                return few_good(&span, first);
            }
        }
    }
    many_good(&span, first)
}

// What the plain check says, by its number. A function of its own: written out in `check`, the compiler copies the slice there by a load of 16 bytes right
// after two stores of 8, which stalls every call.
fn check_plainly(s: &[u8]) -> u32
    ensures { result ≡ open_check s.now }
{
    let opened = image::check_image(s);
    model::outcome_number(opened)
}

// The number of opening's check: 0 at once where all is good, else what the plain check says.
pub fn check(s: &[u8]) -> u32
    ensures { result ≡ open_check s.now }
{
    let good = is_good(s);
    if good {
        return 0;
    }
    check_plainly(s)
}
