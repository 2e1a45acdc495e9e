// What is read of a pair's source: the destination's function by its number, the test of every stamp (10 CorruptedSlab), and the range, from the start
// of the window that the last run ended in up to the newest stamp.
#![tactic(auto)]

ghost use Rattle.std.specs.Prelude.{◌≡◌, true, ◌<◌, ◌^◌};
ghost use Rattle.model.specs.Words.{function_no};
ghost use Rattle.model.specs.Ring.{newest};
ghost use Rattle.model.specs.Consolidate.{stamps_below, start_of, end_after, or_zero};
ghost use Rattle.ring.specs.Parts.{ring_of};
ghost use Rattle.pair_source.specs.Parts.{reading_of};

// A row's function by its number. An `Option`, and no `TryFrom`: 0 is no error, but no function.
pub fn function_of(number: u32) -> Option<model::ConsolidationFn>
    ensures { result ≡ function_no number }
{
    match number {
        1 => Some(model::ConsolidationFn::Average),
        2 => Some(model::ConsolidationFn::Min),
        3 => Some(model::ConsolidationFn::Max),
        4 => Some(model::ConsolidationFn::Last),
        5 => Some(model::ConsolidationFn::Sum),
        6 => Some(model::ConsolidationFn::Count),
        _ => None,
    }
}

// Every stamp of the slab is below 2^63.
pub fn stamps_below(slab: &ring::Slab) -> bool
    ensures { result ≡ stamps_below slab.now.bytes.now 0 slab.now.slots }
{
    for i in 0..slab.slots {
        let t = slab.stamp(i);
        if t >= format::TOP {
            return false;
        }
    }
    true
}

// An end's stamp, or 0.
pub fn or_zero(end: Option<u64>) -> u64
    ensures { result ≡ or_zero end }
{
    end.unwrap_or(0)
}

// One after the newest stamp, or 0 without one.
fn end_after(newest: Option<u64>) -> u64
    requires { or_zero newest < 2 ^ 63 }
    ensures { (result ≡ end_after newest) × (result < 2 ^ 64) }
{
    let Some(t) = newest else {
        return 0;
    };
    t + 1
}

// Where the reading starts: at the oldest stamp without a mark, else at the start of the window, `long` long, that holds the mark.
fn start_of(slab: &ring::Slab, wrapped: bool, mark: u64, long: u64) -> u64
    requires { 0 < long }
    ensures { result ≡ start_of mark long (ring_of slab.now.bytes.now wrapped) }
{
    if mark != 0 {
        return window::window_of(long, mark);
    }
    let oldest = ring_ends::oldest(slab, wrapped);
    or_zero(oldest)
}

// The reading of a source whose stamps are all good.
pub fn reading_of(
    slab: &ring::Slab,
    wrapped: bool,
    mark: u64,
    f: model::ConsolidationFn,
    long: u64,
) -> window::Reading
    requires { (0 < long) × (stamps_below slab.now.bytes.now 0 slab.now.slots ≡ true) }
    ensures { (result ≡ reading_of slab.now.bytes.now slab.now.slots slab.now.series wrapped mark f long) × (result.end < 2 ^ 64) }
{
    let newest = ring_ends::newest(slab, wrapped);
    let end = end_after(newest);
    let start = start_of(slab, wrapped, mark, long);
    window::Reading {
        slots: slab.slots,
        series: slab.series,
        wrapped,
        function: f,
        long,
        start,
        end,
    }
}
