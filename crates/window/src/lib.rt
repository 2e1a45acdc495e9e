// A window's answer for one column of a source: one pass over slots in ring order gathers the counts and the fold of the finite values; then no value, a
// number, or NaN because nothing finite remained. The caller says which slots: a run of the reading order that has all of the window.
// `gather_values` alone says what the pass finds, so that another way to find it changes nothing else.
#![tactic(auto)]

ghost use Rattle.std.specs.Prelude.{◌≡◌, ◌/◌, ◌%◌, ◌^◌, ◌<◌, ◌≤◌, eqb};
ghost use Rattle.model.specs.Ring.{stamp, cell, walk};
ghost use Rattle.model.specs.Window.{window_of, held_value, held, held_in};
ghost use Rattle.window.specs.Parts.{Readable, Asked, job_in, gather, along, Fine};
ghost use Rattle.window.specs.Gather.{entered};

// A source that is read: its sizes and its flag, what is made of it, the destination's interval, and the range.
#[derive(Clone, Copy)]
pub struct Reading {
    pub slots: usize,
    pub series: usize,
    pub wrapped: bool,
    pub function: model::ConsolidationFn,
    pub long: u64,
    pub start: u64,
    pub end: u64,
}

// How many values a window has in the slots read, how many of them are finite, and the fold of these.
#[derive(Clone, Copy)]
pub struct Gathered {
    pub seen: usize,
    pub finite: usize,
    pub value: f64,
}

// The slab of a source that is read, with the reading's sizes.
pub fn source_of<'a>(slab: &'a [u8], q: Reading) -> ring::Slab<'a>
    requires { Readable slab.now q }
    ensures { (result.bytes.now ≡ slab.now) × (result.slots ≡ q.slots) × (result.series ≡ q.series) }
{
    ring::Slab {
        bytes: slab,
        slots: q.slots,
        series: q.series,
    }
}

// The start of the window that a stamp falls in.
pub fn window_of(long: u64, stamp: u64) -> u64
    requires { 0 < long }
    ensures { (result ≡ window_of long stamp) × (result ≤ stamp) }
{
    stamp / long * long
}

// The eleven exponent bits are all ones: the value is infinite, or none at all.
fn is_special(v: u64) -> bool
    ensures { result ≡ eqb (v / 2 ^ 52 % 2 ^ 11) 2047 }
{
    ((v >> 52) & 0x7ff) == 0x7ff
}

// What a value's pattern stands for: most are finite, so that is asked first.
fn held_value(v: u64) -> model::Held
    ensures { result ≡ held_value v }
{
    let special = is_special(v);
    if !special {
        let x = f64::from_bits(v);
        return model::Held::Finite(x);
    }
    let nan = field::is_nan(v);
    if nan {
        return model::Held::Outside;
    }
    model::Held::Infinite
}

// What a slot holds for a window.
fn held_at(slab: &[u8], q: Reading, window: u64, column: usize, slot: usize) -> model::Held
    requires readable { Readable slab.now q }
    requires slot_lt_slots { (slot < q.slots) × (column < q.series) × (window_of q.long window ≡ window) }
    ensures { result ≡ held (job_in slab.now q) window (stamp slab.now slot) (cell slab.now column slot) }
{
    let source = source_of(slab, q);
    let t = source.stamp(slot);
    if t < q.start {
        return model::Held::Outside;
    }
    if t >= q.end {
        return model::Held::Outside;
    }
    if t < window {
        return model::Held::Outside;
    }
    if t - window >= q.long {
        return model::Held::Outside;
    }
    let v = source.cell(column, slot);
    held_value(v)
}

// One slot more: a finite value enters count and fold, an infinite one is seen.
fn enter(f: model::ConsolidationFn, g: Gathered, h: model::Held) -> Gathered
    requires { (g.seen < 4294967296) × (g.finite < 4294967296) }
    ensures { result ≡ entered f g h }
{
    match h {
        model::Held::Outside => g,
        model::Held::Infinite => Gathered {
            seen: g.seen + 1,
            finite: g.finite,
            value: g.value,
        },
        model::Held::Finite(x) => {
            let value = window_apply::fold_step(f, g.value, x);
            Gathered {
                seen: g.seen + 1,
                finite: g.finite + 1,
                value,
            }
        }
    }
}

// What a window has in a column: one pass, each slot read once. After any number of slots g is what the window has in these (specs/Gather.antt `SoFar`).
fn gather_values(
    slab: &[u8],
    q: Reading,
    window: u64,
    column: usize,
    place: model::Place,
) -> Gathered
    requires readable { Readable slab.now q }
    requires asked { Asked q window column place }
    ensures value { result ≡ gather q.function (held_in (job_in slab.now q) window column (walk q.slots place.slot place.left)) }
    ensures finite_bound { result.finite < 4294967296 }
{
    let f = q.function;
    let value = window_apply::fold_start(f);
    let mut g = Gathered {
        seen: 0,
        finite: 0,
        value,
    };
    let mut slot = place.slot;
    for _ in 0..place.left {
        let h = held_at(slab, q, window, column, slot);
        g = enter(f, g, h);
        slot = ring::next_slot(q.slots, slot);
    }
    g
}

// The window's answer for a column, from these slots. A number is never NaN.
pub fn answer(
    slab: &[u8],
    q: Reading,
    window: u64,
    column: usize,
    place: model::Place,
) -> model::WindowAnswer
    requires readable { Readable slab.now q }
    requires asked { Asked q window column place }
    ensures { (result ≡ along (job_in slab.now q) window column (walk q.slots place.slot place.left)) × Fine result }
{
    let g = gather_values(slab, q, window, column, place);
    let seen = g.seen;
    if seen == 0 {
        return model::WindowAnswer::Empty;
    }
    let finite = g.finite;
    if finite == 0 {
        return model::WindowAnswer::NothingFinite;
    }
    let f = q.function;
    let x = window_apply::fold_end(f, g.value, finite);
    model::WindowAnswer::Number(x)
}
