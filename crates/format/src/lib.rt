// The image's numbers, with the names of docs/FORMAT.md, in one place: how long each part is, where each field stands in its part, the magic words, and the
// bounds. And where a slab's stamps stand.
#![tactic(auto)]

ghost use Rattle.std.specs.Prelude.{◌≡◌, ◌<◌, ◌^◌};
ghost use Rattle.model.specs.Layout.{stamps_at};

// The header: its length, and its fields.
pub const HEADER: usize = 32;

pub const HEADER_MAGIC: usize = 0;

pub const HEADER_VERSION: usize = 4;

pub const HEADER_SCHEMAS: usize = 8;

pub const HEADER_ROWS: usize = 12;

pub const HEADER_TOTAL: usize = 16;

pub const HEADER_ZERO: usize = 24;

// A row: its length, and its fields.
pub const ROW: usize = 64;

pub const ROW_SCHEMA: usize = 0;

pub const ROW_TIER: usize = 4;

pub const ROW_INTERVAL: usize = 8;

pub const ROW_RETENTION: usize = 16;

pub const ROW_FUNCTION: usize = 24;

pub const ROW_SERIES: usize = 28;

pub const ROW_OFFSET: usize = 32;

pub const ROW_LENGTH: usize = 40;

pub const ROW_MARK: usize = 48;

pub const ROW_HASH: usize = 56;

// A slab's header: its length, and its fields.
pub const SLAB_HEADER: usize = 64;

pub const SLAB_MAGIC: usize = 0;

pub const SLAB_VERSION: usize = 4;

pub const SLAB_HASH: usize = 8;

pub const SLAB_SLOTS: usize = 16;

pub const SLAB_SERIES: usize = 20;

pub const SLAB_INTERVAL: usize = 24;

pub const SLAB_CURSOR: usize = 32;

// An entry of a batch: its length, and its fields behind the schema, which stands first.
pub const ENTRY: usize = 16;

pub const ENTRY_COLUMN: usize = 4;

pub const ENTRY_VALUE: usize = 8;

// The magic words, `RSTO` and `RNDO`, and the version of both.
pub const RSTO: u64 = 0x4f54_5352;

pub const RNDO: u64 = 0x4f44_4e52;

pub const VERSION: u64 = 1;

// Stamps, intervals, retentions and marks are below 2^63.
pub const TOP: u64 = 0x8000_0000_0000_0000;

// The longest image, 2^40 bytes.
pub const LONGEST: u64 = 0x100_0000_0000;

// The most schemas, rows and slots, and the last function's number.
pub const SCHEMAS: u64 = 8;

pub const ROWS: u64 = 32;

pub const SLOTS: u64 = 1_000_000_000;

pub const FUNCTIONS: u32 = 6;

// The NaN that a fresh cell holds, and that a window without a finite value is written as.
pub const FRESH: u64 = 0x7ff8_0000_0000_0000;

// Where the stamps stand in a slab with m series: behind its header and its directory.
pub fn stamps_at(m: usize) -> usize
    requires { stamps_at m < 2 ^ 63 }
    ensures { result ≡ stamps_at m }
{
    SLAB_HEADER + 4 * m
}
