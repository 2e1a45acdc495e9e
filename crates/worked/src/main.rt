// The worked examples H, J and K of document 01, J as request 2026-01 has it, run through the proved code: 10 into 30, two series, averages. Each line is what a run answered, the mark
// that it left, and the stamp and the value's pattern of one slot of the coarser tier.
#![tactic(auto)]

use anyhow::{Context, Result};
use owned::{Ran, Refused, Store, Tier};

// Two tiers, 10 for 90 and 30 for 90: nine slots and three.
const TIERS: [Tier; 2] = [
    Tier {
        interval: 10,
        retention: 90,
    },
    Tier {
        interval: 30,
        retention: 90,
    },
];

// The image's length, and where it has the finer tier's mark and its value at 30, and the coarser tier's stamps and values, each of column 0.
const LENGTH: usize = 592;

const MARK: usize = 80;

const FINER_AT_30: usize = 328;

const STAMPS: usize = 520;

const VALUES: usize = 544;

const INFINITY: u64 = 0x7ff0_0000_0000_0000;

// Records values of column 0, each at its stamp.
fn record(store: &mut Store, samples: &[(u64, f64)]) -> Result<(), Refused> {
    for (stamp, value) in samples {
        store.sample(0, *value, *stamp)?;
    }
    Ok(())
}

// Consolidates, and writes a line on it, if it can be written: `slot` is the coarser tier's.
fn run(rt: &impl Print, store: &mut Store, example: &str, slot: u8) -> Result<()> {
    let ran = Ran(store.run());
    let word = |at: usize| owned::word(store.image(), at).context("past the image's end");
    let mark = word(MARK)?;
    let stamp = word(STAMPS + 8 * usize::from(slot))?;
    let value = word(VALUES + 8 * usize::from(slot))?;
    let _ = println!(rt; "{example} {ran}, mark {mark}, stamp {stamp} value {value:016x}");
    Ok(())
}

// H: 1, 2, 4 give 7 / 3, rounded once.
fn thirds(rt: &impl Print, store: &mut Store, plan: &[u8]) -> Result<()> {
    store.create(plan)?;
    record(store, &[(30, 1.0), (40, 2.0), (50, 4.0)])?;
    run(rt, store, "H", 1)
}

// H: infinities alone, put into the source's cell, as `record` refuses them, give NaN.
fn infinities(rt: &impl Print, store: &mut Store, plan: &[u8]) -> Result<()> {
    store.create(plan)?;
    record(store, &[(30, 1.0)])?;
    store
        .write(FINER_AT_30, INFINITY)
        .context("past the image's end")?;
    run(rt, store, "H", 1)
}

// J: 1, 2, 6 at 30, 40, 50 give 3 at 30. Then 5 at 60. Then 7 and 9 at 70 and 80: the window at 60 holds 7, the mean of all three (in document 01 alone 8,
// that of the last two).
fn windows(rt: &impl Print, store: &mut Store, plan: &[u8]) -> Result<()> {
    store.create(plan)?;
    record(store, &[(30, 1.0), (40, 2.0), (50, 6.0)])?;
    run(rt, store, "J", 1)?;
    record(store, &[(60, 5.0)])?;
    run(rt, store, "J", 2)?;
    record(store, &[(70, 7.0), (80, 9.0)])?;
    run(rt, store, "J", 2)
}

// K: a sample at 10 gives window 0, refused with 13, the mark unmoved.
fn window_zero(rt: &impl Print, store: &mut Store, plan: &[u8]) -> Result<()> {
    store.create(plan)?;
    record(store, &[(10, 1.0)])?;
    run(rt, store, "K", 0)
}

fn main(rt: HostRuntime) -> Result<()> {
    let plan = owned::plan(rt.alloc(), &TIERS)?;
    let mut store = Store::new(rt.alloc(), LENGTH)?;
    thirds(&rt, &mut store, plan.as_slice())?;
    infinities(&rt, &mut store, plan.as_slice())?;
    windows(&rt, &mut store, plan.as_slice())?;
    window_zero(&rt, &mut store, plan.as_slice())
}
