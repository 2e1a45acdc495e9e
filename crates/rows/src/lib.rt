// Header and rows: what is read of them, their shape and order (1 BadImage), and a plan's fields that must be zero.
// Tests of plain numbers are joined by `&`: no branch, and the code is the definition.
#![tactic(auto)]

ghost use Rattle.std.specs.Prelude.{◌≡◌, true, ◌+◌, ◌*◌, ◌<◌, ◌≤◌, length};
ghost use Rattle.model.specs.Bytes.{get};
ghost use Rattle.model.specs.Image.{unless, header, row_at, follows, row_shape, blank_row, every, shape, blank};
ghost use Rattle.rows.specs.Rows.{rows_to, good_rows};
ghost use Rattle.rows.specs.Checks.{Checks};

// Row i.
pub fn row_at(s: &[u8], i: usize) -> model::Row
    requires { 32 + 64 * i + 64 ≤ length s.now }
    ensures { result ≡ row_at s.now i }
{
    let at = format::HEADER + format::ROW * i;
    model::Row {
        schema: field::get_u32(s, at) as u32,
        tier: field::get_u32(s, at + format::ROW_TIER) as u32,
        interval: field::get_u64(s, at + format::ROW_INTERVAL),
        retention: field::get_u64(s, at + format::ROW_RETENTION),
        function: field::get_u32(s, at + format::ROW_FUNCTION) as u32,
        series: field::get_u32(s, at + format::ROW_SERIES) as u32,
        offset: field::get_u64(s, at + format::ROW_OFFSET),
        len: field::get_u64(s, at + format::ROW_LENGTH),
        mark: field::get_u64(s, at + format::ROW_MARK),
        hash: field::get_u64(s, at + format::ROW_HASH),
    }
}

// The header by its fields, of a slice that is `len` long.
fn header_good(len: usize, magic: u64, version: u64, schemas: u64, rows: u64, zero: u64) -> bool
    requires { rows < 4294967296 }
    ensures { result ≡ header len magic version schemas rows zero }
{
    (magic == format::RSTO)
        & (version == format::VERSION)
        & (1 <= schemas)
        & (schemas <= format::SCHEMAS)
        & (rows <= format::ROWS)
        & (zero == 0)
        & (format::HEADER as u64 + format::ROW as u64 * rows <= (len as u64))
}

// q may stand right after p.
fn row_follows(p: model::Row, q: model::Row) -> bool
    ensures { result ≡ follows p q }
{
    ((p.schema == q.schema)
        & ((p.tier as u64) + 1 == (q.tier as u64))
        & (p.series == q.series)
        & (p.hash == q.hash))
        | ((p.schema < q.schema) & (q.tier == 0))
}

fn row_shaped(schemas: u64, r: model::Row) -> bool
    ensures { result ≡ row_shape schemas r }
{
    ((r.schema as u64) < schemas) & (r.function <= format::FUNCTIONS) & (r.mark < format::TOP)
}

fn row_blank(r: model::Row) -> bool
    ensures { result ≡ blank_row r }
{
    (r.offset == 0) & (r.len == 0) & (r.mark == 0)
}

// The rows of a plan or an image: `count` of them, behind the header.
#[derive(Clone, Copy)]
pub struct Table<'a> {
    pub bytes: &'a [u8],
    pub count: usize,
    ghost inside: { 32 + 64 * count ≤ length bytes.now },
}

impl<'a> Table<'a> {
    // As many rows as the header says.
    pub fn of(bytes: &'a [u8]) -> Table<'a>
        requires { 32 + 64 * get 4 bytes.now 12 ≤ length bytes.now }
        ensures { (result.bytes.now ≡ bytes.now) × (result.count ≡ get 4 bytes.now 12) }
    {
        let count = field::get_u32(bytes, format::HEADER_ROWS) as usize;
        Table { bytes, count }
    }

    // Row i.
    pub fn row(&self, i: usize) -> model::Row
        requires { i < self.now.count }
        ensures { result ≡ row_at self.now.bytes.now i }
    {
        row_at(self.bytes, i)
    }

    // Row i, if its schema, function and mark are in range.
    pub fn checked_row(&self, i: usize, schemas: u64) -> Result<model::Row, model::Refusal>
        requires { i < self.now.count }
        ensures { Checks result (row_at self.now.bytes.now i) (unless (row_shape schemas (row_at self.now.bytes.now i)) 1) }
    {
        let r = self.row(i);
        let good = row_shaped(schemas, r);
        if good {
            return Ok(r);
        }
        Err(model::Refusal::BadImage)
    }

    // The rows stand in order, and each is in range.
    pub fn rows_good(&self, schemas: u64) -> bool
        ensures { result ≡ good_rows schemas (rows_to self.now.bytes.now self.now.count 0) }
    {
        if self.count == 0 {
            return true;
        }
        let Ok(first) = self.checked_row(0, schemas) else {
            return false;
        };
        if first.tier != 0 {
            return false;
        }
        let mut p = first;
        for i in 1..self.count {
            let Ok(q) = self.checked_row(i, schemas) else {
                return false;
            };
            let next = row_follows(p, q);
            if !next {
                return false;
            }
            p = q;
        }
        true
    }

    fn rows_blank(&self) -> bool
        ensures { result ≡ every blank_row (rows_to self.now.bytes.now self.now.count 0) }
    {
        let mut good = true;
        for i in 0..self.count {
            let r = self.row(i);
            let one = row_blank(r);
            good &= one;
        }
        good
    }
}

// Header and rows are in shape: what both creation and opening begin with.
pub fn is_shaped(s: &[u8]) -> bool
    ensures { result ≡ shape s.now }
{
    if s.len() < format::HEADER {
        return false;
    }
    let magic = field::get_u32(s, format::HEADER_MAGIC);
    let version = field::get_u32(s, format::HEADER_VERSION);
    let schemas = field::get_u32(s, format::HEADER_SCHEMAS);
    let n = field::get_u32(s, format::HEADER_ROWS);
    let zero = field::get_u64(s, format::HEADER_ZERO);
    let head = header_good(s.len(), magic, version, schemas, n, zero);
    if !head {
        return false;
    }
    let table = Table {
        bytes: s,
        count: n as usize,
    };
    table.rows_good(schemas)
}

// A plan's fields that must be zero are.
pub fn is_blank(s: &[u8]) -> bool
    requires { shape s.now ≡ true }
    ensures { result ≡ blank s.now }
{
    let total = field::get_u64(s, format::HEADER_TOTAL);
    let table = Table::of(s);
    let rows = table.rows_blank();
    (total == 0) & rows
}
