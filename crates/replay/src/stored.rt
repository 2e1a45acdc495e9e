// The stored list that the program `replay` carries out: its items, an item's words, and what an item says of a call's answer and of the image and the flags
// after it (crates/replay/README.md).
ghost use Rattle.std.specs.Prelude.{◌<◌, ◌≤◌, length};
ghost use Rattle.std.specs.Iterator.{at_most};

use owned::{Points, Refused, Store};

// How many points of a query are compared at most.
const MOST_POINTS: usize = 100_000;

// What an item is.
#[derive(Clone, Copy)]
pub enum Kind {
    Rest,
    Create,
    Open,
    Record,
    Batch,
    Query,
    QueryAuto,
    Run,
    Write,
    GroupEnd,
}

// A number that is no kind's.
#[derive(Clone, Copy)]
pub struct NoKind;

impl TryFrom<u64> for Kind {
    type Error = NoKind;

    fn try_from(number: u64) -> Result<Kind, NoKind> {
        match number {
            0 => Ok(Kind::Rest),
            1 => Ok(Kind::Create),
            2 => Ok(Kind::Open),
            3 => Ok(Kind::Record),
            4 => Ok(Kind::Batch),
            5 => Ok(Kind::Query),
            6 => Ok(Kind::QueryAuto),
            7 => Ok(Kind::Run),
            8 => Ok(Kind::Write),
            9 => Ok(Kind::GroupEnd),
            _ => Err(NoKind),
        }
    }
}

// Where a block's first item ends: its first word is its length, and one of length 0, or that goes past the block's end, ends with the block.
fn end_of(block: &[u8]) -> usize
    requires { 0 < length block.now }
    ensures { (0 < result) × (result ≤ length block.now) }
{
    let size = owned::word(block, 0).unwrap_or(0) as usize;
    if 0 < size && size <= block.len() {
        return size;
    }
    block.len()
}

// A block's items, one after another.
#[derive(Clone, Copy)]
pub struct Items<'a>(pub &'a [u8]);

impl<'a> Iterator for Items<'a> {
    type Item = Item<'a>;

    ghost remaining = { λ s. at_most (length s.0.now) };

    fn next(&mut self) -> Option<Item<'a>> {
        let block = self.0;
        if block.is_empty() {
            return None;
        }
        let (item, rest) = block.split_at(end_of(block));
        self.0 = rest;
        Some(Item(item))
    }
}

// A call, and what the Rust answered; or the end of a group of calls.
#[derive(Clone, Copy)]
pub struct Item<'a>(&'a [u8]);

// A query's answer without its points; an end that is missing is 0.
#[derive(Clone, Copy, PartialEq, Eq)]
struct Head {
    tier: u64,
    start: u64,
    end: u64,
    oldest: u64,
    newest: u64,
    incomplete: bool,
}

impl Head {
    fn of(found: model::Found) -> Head {
        Head {
            tier: u64::from(found.tier),
            start: found.start,
            end: found.end,
            oldest: found.oldest.unwrap_or(0),
            newest: found.newest.unwrap_or(0),
            incomplete: found.incomplete,
        }
    }
}

impl<'a> Item<'a> {
    // The number in the eight bytes at an offset; 0 past the end.
    pub fn word(&self, at: usize) -> u64 {
        owned::word(self.0, at).unwrap_or(0)
    }

    // The number in the four bytes at an offset; 0 past the end.
    pub fn half(&self, at: usize) -> u32 {
        owned::half(self.0, at).unwrap_or(0)
    }

    // A number that is no kind's is taken for somebody else's write.
    pub fn kind(&self) -> Kind {
        Kind::try_from(self.word(8)).unwrap_or(Kind::Write)
    }

    // The bytes from an offset on; none past the end.
    pub fn rest(&self, from: usize) -> Option<&'a [u8]> {
        self.0.get(from..)
    }

    // The series that a record or a query names.
    pub fn handle(&self) -> model::SeriesHandle {
        model::SeriesHandle {
            schema: self.half(48),
            column: self.half(56),
        }
    }

    // The stored answer: `accepted`, or the refusal.
    pub fn answer<T: Drop>(&self, accepted: T) -> Result<T, Refused> {
        match self.word(16) {
            0 => Ok(accepted),
            number => Err(Refused(number)),
        }
    }

    // The stored answer of a query, without its points.
    fn head(&self) -> Head {
        Head {
            tier: self.word(88),
            start: self.word(72),
            end: self.word(80),
            oldest: self.word(96),
            newest: self.word(104),
            incomplete: self.word(112) == 1,
        }
    }

    // The stamp and the value of a stored point, sixteen bytes each.
    fn point(&self, i: usize) -> (u64, u64) {
        let at = i.saturating_mul(16);
        (
            self.word(at.saturating_add(128)),
            self.word(at.saturating_add(136)),
        )
    }

    // A query's answer, with its points, is the stored one.
    pub fn is_answer(&self, reply: Result<(model::Found, Points<'_>), Refused>) -> bool {
        match reply {
            Ok((found, points)) => self.answer(self.head()) == Ok(Head::of(found))
                && self.has_points(points),
            Err(refused) => self.answer(()) == Err(refused),
        }
    }

    // A reader's points, up to its end, are the stored ones. A count above the limit is unlike any reading.
    fn has_points(&self, points: Points<'_>) -> bool {
        let count = self.word(120) as usize;
        let stored = (0..count).map(|i| self.point(i));
        count <= MOST_POINTS && points.map(|p| (p.stamp, p.value)).eq(stored)
    }

    // The image's bytes and the flags are those that the item says.
    pub fn is_left(&self, store: &Store) -> bool {
        let Some(image) = store.image().get(..self.word(24) as usize) else {
            return false;
        };
        let flags = flag_bits::number_of(store.flags());
        u64::from(flags) == self.word(40) && u64::from(sum_of(image)) == self.word(32)
    }
}

// One byte more of a sum: a polynomial in 257 over the integers modulo the prime 2^32 - 5, so that every change of one byte shows.
fn add_byte(sum: u32, byte: u8) -> u32
    ensures { result < 4294967291 }
{
    ((u64::from(sum) * 257 + u64::from(byte) + 1) % 4_294_967_291) as u32
}

// The sum of bytes.
fn sum_of(bytes: &[u8]) -> u32 {
    bytes.iter().fold(0, |sum, byte| add_byte(sum, *byte))
}
