// Carries out a list of calls, lent as bytes (specs/Encoded.antt), on a lent image through the proved cores: what it leaves is the fold of the step function
// `call`. A query changes nothing, so its turn answers the flags as they are.
#![tactic(auto)]

ghost use Rattle.std.specs.Prelude.{◌≡◌, ◌+◌, ◌≤◌, length};
ghost use Rattle.model.specs.Bytes.{u32};
ghost use Rattle.model.specs.Lent.{opening};
ghost use Rattle.model.specs.Store.{call, after, consolidate_call};
ghost use Rattle.lookup.specs.Parts.{lent_of};
ghost use Rattle.tie_calls.specs.Encoded.{batch_size, size_at, record_at, batch_at, handed_at, call_at, calls_in};
ghost use Rattle.tie_calls.specs.Kinds.{KindIs};

// What a call does.
#[derive(Clone, Copy)]
enum Kind {
    Record,
    Batch,
    Query,
    Auto,
    Open,
    Run,
}

// What the call at an offset does, by its number.
fn kind_at(calls: &[u8], at: usize) -> Kind
    requires { at + 32 ≤ length calls.now }
    ensures { KindIs result (u32 calls.now at) }
{
    match field::get_u32(calls, at) {
        0 => Kind::Record,
        1 => Kind::Batch,
        2 => Kind::Query,
        3 => Kind::Auto,
        4 => Kind::Open,
        _ => Kind::Run,
    }
}

// How many bytes the call at an offset takes.
fn size_at(calls: &[u8], at: usize) -> usize
    requires { at + 32 ≤ length calls.now }
    ensures { result ≡ size_at calls.now at }
{
    match kind_at(calls, at) {
        Kind::Batch => {
            let count = field::get_u32(calls, at + 12);
            32 + 16 * (count as usize)
        }
        _ => 32,
    }
}

// Carries out the record at an offset. Answers the flags.
fn carry_record(image: &mut [u8], flags: model::Flags, calls: &[u8], at: usize) -> model::Flags
    requires { at + 32 ≤ length calls.now }
    ensures { lent_of image.new result ≡ (call (lent_of image.old flags) (record_at calls.now at)).lent }
{
    let schema = field::get_u32(calls, at + 4);
    let column = field::get_u32(calls, at + 8);
    let value = field::get_u64(calls, at + 16);
    let stamp = field::get_u64(calls, at + 24);
    let handle = model::SeriesHandle {
        schema: schema as u32,
        column: column as u32,
    };
    let done = record::record(image, flags, handle, value, stamp);
    done.flags
}

// Carries out the batch at an offset. Answers the flags.
fn carry_batch(image: &mut [u8], flags: model::Flags, calls: &[u8], at: usize) -> model::Flags
    requires { at + batch_size calls.now at ≤ length calls.now }
    ensures { lent_of image.new result ≡ (call (lent_of image.old flags) (batch_at calls.now at)).lent }
{
    let count = field::get_u32(calls, at + 12);
    let batch_stamp = field::get_u64(calls, at + 24);
    let from = at + 32;
    let to = from + 16 * (count as usize);
    let done = batch::record_batch(image, flags, &calls[from..to], batch_stamp);
    done.flags
}

// Carries out the opening at an offset, which is handed its own flags. Answers the flags.
fn carry_open(image: &[u8], calls: &[u8], at: usize) -> model::Flags
    requires { at + 32 ≤ length calls.now }
    ensures { lent_of image.now result ≡ opening (record { image = image.now; flags = handed_at calls.now at }) }
{
    let number = field::get_u32(calls, at + 4);
    let handed = flag_bits::flags_of(number as u32);
    let done = open::open(image, handed);
    done.flags
}

// Carries out a consolidation. Answers the flags.
fn carry_run(image: &mut [u8], flags: model::Flags) -> model::Flags
    ensures { lent_of image.new result ≡ (call (lent_of image.old flags) consolidate_call).lent }
{
    let done = consolidate::consolidate(image, flags);
    done.flags
}

// Carries out the call at an offset. Answers the flags.
fn carry_one(image: &mut [u8], flags: model::Flags, calls: &[u8], at: usize) -> model::Flags
    requires { at + size_at calls.now at ≤ length calls.now }
    ensures { lent_of image.new result ≡ (call (lent_of image.old flags) (call_at calls.now at)).lent }
{
    match kind_at(calls, at) {
        Kind::Record => carry_record(image, flags, calls, at),
        Kind::Batch => carry_batch(image, flags, calls, at),
        Kind::Query | Kind::Auto => flags,
        Kind::Open => carry_open(image, calls, at),
        Kind::Run => carry_run(image, flags),
    }
}

// Carries out the calls, one after the other. Answers the flags.
pub fn carry_out(image: &mut [u8], flags: model::Flags, calls: &[u8]) -> model::Flags
    ensures { lent_of image.new result ≡ after (lent_of image.old flags) (calls_in calls.now) }
{
    let mut next = flags;
    let mut at = 0;
    let mut left = calls.len() / 32;
    // No `for`: a step is a call's size, and `left` only bounds the number of turns.
    while 0 < left {
        if calls.len() - at < 32 {
            return next;
        }
        let size = size_at(calls, at);
        if calls.len() - at < size {
            return next;
        }
        next = carry_one(image, next, calls, at);
        at += size;
        left -= 1;
    }
    next
}
