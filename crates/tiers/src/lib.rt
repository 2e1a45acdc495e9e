// What a query finds in an image in good order: whether a schema has a tier; a row's ring, with its ends, the reader's place and where its slab stands; the
// tier that `query_auto` chooses (`select_tier` of query.rs); the answer. Each ring is looked at once. A tier's slab is handed on as the part of the image
// that its row names. `ring_at` and `answer` ask for a row's flag alone, so that a caller may keep its flags as it likes.
#![tactic(auto)]

ghost use Rattle.std.specs.Prelude.{◌≡◌, ◌<◌, ltb, length};
ghost use Rattle.model.specs.Image.{row_count, rows, tiers_of};
ghost use Rattle.model.specs.Lent.{first_row};
ghost use Rattle.tiers.specs.Reached.{Reached, found_by, AnswerIs, NotFirst, ChosenIs};

// A row's ring as a query finds it: both ends, the slot where its reading starts and how many slots it goes over, and where its slab stands in the image. What
// stands side by side in an answer does not here: else the compiler copies two words by one load right after two stores, which stalls every query.
#[derive(Clone, Copy)]
pub struct Reach {
    pub from: usize,
    pub oldest: Option<u64>,
    pub slot: usize,
    pub newest: Option<u64>,
    pub to: usize,
    pub left: usize,
}

// The tier that is chosen, and its ring.
#[derive(Clone, Copy)]
pub struct Chosen {
    pub tier: usize,
    pub reach: Reach,
}

// A schema has a tier: the row where it would stand is there and is of the schema. `first` is the row of tier 0.
pub fn has_tier(image: &lookup::Image, schema: u64, first: usize, tier: usize) -> bool
    requires { (first ≡ first_row schema (rows image.now.bytes.now)) × (first < row_count image.now.bytes.now) × (tier < 4294967296) }
    ensures { result ≡ ltb tier (length (tiers_of schema (rows image.now.bytes.now))) }
{
    let n = field::get_u32(image.bytes, format::HEADER_ROWS) as usize;
    let row = first + tier;
    if row >= n {
        return false;
    }
    let s = field::get_u32(image.bytes, format::HEADER + format::ROW * row);
    s == schema
}

// A row's ring, whose flag is `wrapped`.
fn ring_at(image: &lookup::Image, row: usize, wrapped: bool) -> Reach
    requires { row < row_count image.now.bytes.now }
    ensures { Reached image.now.bytes.now row wrapped result }
{
    let s = image.slab_at(row);
    let from = s.from;
    let to = s.to;
    let z = s.sizes;
    let slab = ring::Slab {
        bytes: &image.bytes[from..to],
        slots: z.slots,
        series: z.series,
    };
    let oldest = ring_ends::oldest(&slab, wrapped);
    let newest = ring_ends::newest(&slab, wrapped);
    let place = slab.first_place(wrapped);
    Reach {
        from,
        oldest,
        slot: place.slot,
        newest,
        to,
        left: place.left,
    }
}

// The choice among the tiers behind tier 0, which does not cover the range in full; `finest` is its ring.
fn choose_behind(
    image: &lookup::Image,
    flags: u32,
    schema: u64,
    first: usize,
    finest: Reach,
    start: u64,
    end: u64,
) -> Chosen
    requires { NotFirst image.now.bytes.now flags schema first finest start end }
    ensures { ChosenIs image.now.bytes.now flags schema first start end result }
{
    let mut best = Chosen {
        tier: 0,
        reach: finest,
    };
    let mut tier = 1;
    while has_tier(image, schema, first, tier) {
        let wrapped = flag_bits::flag_at(flags, first + tier);
        let here = ring_at(image, first + tier, wrapped);
        let oldest = here.oldest;
        let newest = here.newest;
        let covers = ring_ends::is_full(oldest, newest, start, end);
        if covers {
            return Chosen { tier, reach: here };
        }
        let both = ring_ends::has_both(oldest, newest);
        // Each way has its own step: joined, `query_auto` with three rows takes 391 instructions in place of 382.
        if both {
            best = Chosen { tier, reach: here };
            tier += 1;
            continue;
        }
        tier += 1;
    }
    best
}

// The first tier of a schema that fully covers a range, else the last with both ends, else 0. `first` is the row of tier 0.
pub fn choose(
    image: &lookup::Image,
    flags: u32,
    schema: u64,
    first: usize,
    start: u64,
    end: u64,
) -> Chosen
    requires { (first ≡ first_row schema (rows image.now.bytes.now)) × (0 < length (tiers_of schema (rows image.now.bytes.now))) }
    ensures { ChosenIs image.now.bytes.now flags schema first start end result }
{
    let wrapped = flag_bits::flag_at(flags, first);
    let finest = ring_at(image, first, wrapped);
    let oldest = finest.oldest;
    let newest = finest.newest;
    let covers = ring_ends::is_full(oldest, newest, start, end);
    if covers {
        return Chosen {
            tier: 0,
            reach: finest,
        };
    }
    choose_behind(image, flags, schema, first, finest, start, end)
}

// The answer of a row's ring, which is tier `tier`.
pub fn answer_of(r: Reach, column: u32, tier: u32, start: u64, end: u64) -> model::Found
    ensures { result ≡ found_by r column tier start end }
{
    let oldest = r.oldest;
    let newest = r.newest;
    let incomplete = ring_ends::is_incomplete(oldest, newest, start, end);
    let place = model::Place {
        slot: r.slot,
        left: r.left,
    };
    model::Found {
        tier,
        oldest,
        newest,
        start,
        end,
        incomplete,
        column,
        from: r.from,
        to: r.to,
        place,
    }
}

// The answer of a row, which is tier `tier` and whose flag is `wrapped`.
pub fn answer(
    image: &lookup::Image,
    row: usize,
    wrapped: bool,
    column: u32,
    tier: u32,
    start: u64,
    end: u64,
) -> model::Found
    requires { row < row_count image.now.bytes.now }
    ensures { AnswerIs image.now.bytes.now row wrapped column tier start end result }
{
    let found = ring_at(image, row, wrapped);
    answer_of(found, column, tier, start, end)
}
