// The calls that read, in Rust's forms: a query hands back its answer with a reader over the part of the image that it names (Rust's `RingIterator`), and
// `next` moves the reader on behind `&mut`. Nothing that is lent changes.
#![tactic(auto)]

ghost use Rattle.std.specs.Prelude.{◌≡◌, ◌-◌};
ghost use Rattle.model.specs.Bytes.{part};
ghost use Rattle.model.specs.Query.{query, query_auto, replied_by};
ghost use Rattle.model.specs.Store.{query_call, auto_call};
ghost use Rattle.lookup.specs.Parts.{lent_of};
ghost use Rattle.store_reads.specs.Reads.{reader_of, step_of, later};
ghost use Rattle.store_reads.specs.Answers.{start_of, reader_at, Answers};

// A reader: the slab's bytes, the column and the range, the slot that it stands at and the slots left.
#[derive(Clone, Copy)]
pub struct Reader<'a> {
    pub slab: &'a [u8],
    pub column: u32,
    pub start: u64,
    pub end: u64,
    pub slot: usize,
    pub left: usize,
}

// A query's answer with the reader of its points. Where the query is refused the reader is at its end.
#[derive(Clone, Copy)]
pub struct QueryResult<'a> {
    pub queried: Result<model::Found, model::Refusal>,
    pub reader: Reader<'a>,
}

// A query's answer, and the reader's fields: its slab is the image from `from` up to `to`.
#[derive(Clone, Copy)]
pub struct Start {
    pub queried: Result<model::Found, model::Refusal>,
    pub from: usize,
    pub to: usize,
    pub column: u32,
    pub start: u64,
    pub end: u64,
    pub slot: usize,
    pub left: usize,
}

// Where the reader of an answer starts.
fn start_of(queried: Result<model::Found, model::Refusal>) -> Start
    ensures { result ≡ start_of queried }
{
    let Ok(found) = queried else {
        return Start {
            queried,
            from: 0,
            to: 0,
            column: 0,
            start: 0,
            end: 0,
            slot: 0,
            left: 0,
        };
    };
    Start {
        queried,
        from: found.from,
        to: found.to,
        column: found.column,
        start: found.start,
        end: found.end,
        slot: found.place.slot,
        left: found.place.left,
    }
}

// A slice from `from` up to `to`, as much of it as there is.
fn part(s: &[u8], from: usize, to: usize) -> &[u8]
    ensures { result.now ≡ part s.now from (to - from) }
{
    let len = s.len();
    if to <= len {
        if from <= to {
            return &s[from..to];
        }
        return &s[..0];
    }
    if from <= len {
        return &s[from..len];
    }
    &s[..0]
}

// A query's answer with its reader, over the part of the image that it names.
fn result_of<'a>(image: &'a [u8], begin: Start) -> QueryResult<'a>
    ensures queried { result.queried ≡ begin.queried }
    ensures reader { reader_of result.reader ≡ reader_at image.now begin }
{
    let slab = part(image, begin.from, begin.to);
    let reader = Reader {
        slab,
        column: begin.column,
        start: begin.start,
        end: begin.end,
        slot: begin.slot,
        left: begin.left,
    };
    QueryResult {
        queried: begin.queried,
        reader,
    }
}

// Queries a tier, by value.
fn start_query(
    image: &[u8],
    flags: model::Flags,
    handle: model::SeriesHandle,
    tier: u32,
    start: u64,
    end: u64,
) -> Start
    ensures { (replied_by image.now result.queried ≡ query (lent_of image.now flags) handle.schema handle.column tier start end) × (result ≡ start_of result.queried) }
{
    let queried = query::query(image, flags, handle, tier, start, end);
    start_of(queried)
}

// Queries the tier that covers the range best, by value.
fn start_auto(
    image: &[u8],
    flags: model::Flags,
    handle: model::SeriesHandle,
    start: u64,
    end: u64,
) -> Start
    ensures { (replied_by image.now result.queried ≡ query_auto (lent_of image.now flags) handle.schema handle.column start end) × (result ≡ start_of result.queried) }
{
    let queried = query::query_auto(image, flags, handle, start, end);
    start_of(queried)
}

// Queries a series at a tier, from `start` up to `end`.
pub fn query<'a>(
    image: &'a [u8],
    flags: model::Flags,
    handle: model::SeriesHandle,
    tier: u32,
    start: u64,
    end: u64,
) -> QueryResult<'a>
    ensures { Answers (lent_of image.now flags) (query_call handle.schema handle.column tier start end) result.queried (reader_of result.reader) }
{
    let begin = start_query(image, flags, handle, tier, start, end);
    result_of(image, begin)
}

// Queries a series at the tier that covers the range best.
pub fn query_auto<'a>(
    image: &'a [u8],
    flags: model::Flags,
    handle: model::SeriesHandle,
    start: u64,
    end: u64,
) -> QueryResult<'a>
    ensures { Answers (lent_of image.now flags) (auto_call handle.schema handle.column start end) result.queried (reader_of result.reader) }
{
    let begin = start_auto(image, flags, handle, start, end);
    result_of(image, begin)
}

// Hands out the next point of the range, or the end. A reader that is at its end stays there.
pub fn next<'s, 'a>(r: &'s mut Reader<'a>) -> Option<model::Point>
    ensures { (result ≡ (step_of r.old).next) × (r.new ≡ later r.old) }
{
    let slab = r.slab;
    let column = r.column;
    let start = r.start;
    let end = r.end;
    let place = model::Place {
        slot: r.slot,
        left: r.left,
    };
    let found = reader::step(slab, column, start, end, place);
    r.slot = found.place.slot;
    r.left = found.place.left;
    found.next
}
