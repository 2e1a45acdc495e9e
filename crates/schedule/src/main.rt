// A schedule of two hours through the proved code: 1 s for 2 h, 60 s for 24 h and 1 h for 30 days, two series, averages. Both series are recorded each second
// from 01:00:00 on, the second of the minute and the number of the minute. Runs follow 01:59:59, an hour's last second; 02:30:29, in the middle of a minute and
// of an hour; and 02:59:59. One line a run says how many values it wrote: two series of its minutes and hours, those of the mark's window again. After the
// second run and after the third one line a tier and series says how many points a query over all time hands out, and the first and the last of them, as
// seconds and a value: after the second the last minute and hour are those still open.
#![tactic(auto)]

use anyhow::{Result, bail};
use owned::{Ran, Refused, Store, Tier};
use std::fmt;
use std::num::f64_from_bits_with_nan;

const SECOND: u64 = 1_000_000_000;

const MINUTE: u64 = 60 * SECOND;

const HOUR: u64 = 60 * MINUTE;

const DAY: u64 = 24 * HOUR;

const TIERS: [Tier; 3] = [
    Tier {
        interval: SECOND,
        retention: 2 * HOUR,
    },
    Tier {
        interval: MINUTE,
        retention: DAY,
    },
    Tier {
        interval: HOUR,
        retention: 30 * DAY,
    },
];

// The image's length.
const LENGTH: usize = 225_080;

// A point, as seconds and tenths of its value.
#[derive(Clone, Copy)]
struct Shown<'a>(&'a model::Point);

impl<'a> fmt::Display for Shown<'a> {
    fn fmt<W: fmt::Write>(&self, f: &mut fmt::Formatter<W>) -> fmt::Result {
        let seconds = self.0.stamp / SECOND;
        let value = f64_from_bits_with_nan(self.0.value);
        write!(f, "{seconds} s {value:.1}")
    }
}

// Records the seconds from one to another, counted from 01:00:00 on.
fn record(store: &mut Store, from: u32, to: u32) -> Result<(), Refused> {
    for s in from..to {
        let stamp = HOUR + u64::from(s) * SECOND;
        store.sample(0, f64::from(s % 60), stamp)?;
        store.sample(1, f64::from(s / 60), stamp)?;
    }
    Ok(())
}

// Consolidates, and writes the answer. A line that can't be written is left out, here and below.
fn run(rt: &impl Print, store: &mut Store) {
    let _ = println!(rt; "run: {}", Ran(store.run()));
}

// Writes a line on a tier and a series, read over all time.
fn show(rt: &(impl Print + AllocGlobal), store: &Store, tier: u32, column: u32) -> Result<()> {
    let handle = model::SeriesHandle { schema: 0, column };
    let (_, points) = store.query(handle, tier, 0, u64::MAX)?;
    let points = points.collect::<Vec<model::Point>>(rt.alloc())?;
    let (Some(first), Some(last)) = (points.first(), points.last()) else {
        bail!("tier {tier} series {column}: no points");
    };
    let count = points.len();
    let first = Shown(first);
    let last = Shown(last);
    let _ = println!(rt; "tier {tier} series {column}: {count} points, first {first}, last {last}");
    Ok(())
}

// Writes a line on each tier and series.
fn show_all(rt: &(impl Print + AllocGlobal), store: &Store) -> Result<()> {
    for tier in 0..3 {
        for column in 0..2 {
            show(rt, store, tier, column)?;
        }
    }
    Ok(())
}

fn main(rt: HostRuntime) -> Result<()> {
    let plan = owned::plan(rt.alloc(), &TIERS)?;
    let mut store = Store::new(rt.alloc(), LENGTH)?;
    store.create(plan.as_slice())?;
    record(&mut store, 0, 3600)?;
    run(&rt, &mut store);
    record(&mut store, 3600, 5430)?;
    run(&rt, &mut store);
    show_all(&rt, &store)?;
    record(&mut store, 5430, 7200)?;
    run(&rt, &mut store);
    show_all(&rt, &store)
}
