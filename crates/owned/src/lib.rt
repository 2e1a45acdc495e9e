// A store that owns its bytes, as the three programs use it: the image in a `Vec` with its flags beside it, a plan made from its tiers, a reading's points as
// an iterator, refusals as errors. The calls are those of `store` and `store_reads`.
#![tactic(auto)]

ghost use Rattle.std.specs.Prelude.{◌≡◌, ◌+◌, ◌<◌, ◌≤◌, ◌↔◌, false, length, replicate, ◌++◌, flat_map, IsSome, IfSome, IfNone, MatchOption, IfOk, OnOk, MatchResult, IsErrOf};
ghost use Rattle.std.specs.Iterator.{at_most};
ghost use Rattle.std.specs.Float.Ieee.{to_bits, binary64};
ghost use Rattle.model.specs.Bytes.{bytes, get, put};
ghost use Rattle.model.specs.Words.{number_of};
ghost use Rattle.model.specs.Image.{row_bytes, create_check, open_check};
ghost use Rattle.model.specs.Lent.{creation, opening};
ghost use Rattle.model.specs.Record.{entries};
ghost use Rattle.model.specs.Store.{record_call, batch_call, consolidate_call, query_call, auto_call, call};
ghost use Rattle.store.specs.Called.{done_of};
ghost use Rattle.store_reads.specs.Reads.{step_of, later};
ghost use Rattle.owned.specs.Answers.{lent, answer_no, answer_reply, run_reply, Asked};
ghost use Rattle.owned.specs.Plan.{plan_row, plan_bytes};

use std::alloc::{AllocError, Global};
use std::fmt;
use std::num::f64_to_bits_with_nan;
use thiserror::Error;

// A plan's first word, "RSTO".
const MAGIC: u32 = 0x4f54_5352;

// How many series a plan's tiers have.
const SERIES: u32 = 2;

// A refusal, by its number.
#[derive(Clone, Copy, Debug, PartialEq, Eq, Error)]
#[error("refused {0}")]
pub struct Refused(pub u64);

impl From<model::Refusal> for Refused {
    ghost from_gives = { λ r e. e.0 ≡ number_of r };

    fn from(refusal: model::Refusal) -> Refused {
        Refused(u64::from(model::refusal_number(refusal)))
    }
}

// A run's answer, in words.
#[derive(Clone, Copy)]
pub struct Ran(pub Result<u64, Refused>);

impl fmt::Display for Ran {
    fn fmt<W: fmt::Write>(&self, f: &mut fmt::Formatter<W>) -> fmt::Result {
        match self.0 {
            Ok(count) => write!(f, "wrote {count}"),
            Err(refused) => write!(f, "{refused}"),
        }
    }
}

// The number in the eight bytes at an offset, if there are so many.
pub fn word(bytes: &[u8], at: usize) -> Option<u64>
    ensures { MatchOption result (length bytes.now < at + 8) (λ x. (at + 8 ≤ length bytes.now) × (x ≡ get 8 bytes.now at)) }
{
    let word = bytes.get(at..)?.first_chunk::<8>()?;
    Some(u64::from_le_bytes(*word))
}

// The number in the four bytes at an offset, if there are so many.
pub fn half(bytes: &[u8], at: usize) -> Option<u32>
    ensures { MatchOption result (length bytes.now < at + 4) (λ x. (at + 4 ≤ length bytes.now) × (x ≡ get 4 bytes.now at)) }
{
    let half = bytes.get(at..)?.first_chunk::<4>()?;
    Some(u32::from_le_bytes(*half))
}

// A tier of a plan.
#[derive(Clone, Copy)]
pub struct Tier {
    pub interval: u64,
    pub retention: u64,
}

fn put_halves(plan: &mut Vec<u8>, halves: &[u32]) -> Result<(), AllocError>
    ensures { OnOk result (plan.new.items ≡ plan.old.items ++ flat_map (bytes 4) halves.now) }
{
    for half in halves {
        plan.extend_from_slice(&half.to_le_bytes())?;
    }
    Ok(())
}

fn put_words(plan: &mut Vec<u8>, words: &[u64]) -> Result<(), AllocError>
    ensures { OnOk result (plan.new.items ≡ plan.old.items ++ flat_map (bytes 8) words.now) }
{
    for word in words {
        plan.extend_from_slice(&word.to_le_bytes())?;
    }
    Ok(())
}

// The row of a tier, by its number. Each tier but the finest holds averages.
fn put_row(plan: &mut Vec<u8>, i: u32, tier: Tier) -> Result<(), AllocError>
    ensures { OnOk result (plan.new.items ≡ plan.old.items ++ row_bytes (plan_row i tier)) }
{
    put_halves(plan, &[0, i])?;
    put_words(plan, &[tier.interval, tier.retention])?;
    put_halves(plan, &[u32::from(0 < i), SERIES])?;
    put_words(plan, &[0, 0, 0, 7])
}

// The plan of one schema, the finest tier first: a header, and a row a tier.
pub fn plan(alloc: Global, tiers: &[Tier]) -> Result<Vec<u8>, AllocError>
    requires { length tiers.now ≤ 32 }
    ensures { IfOk result (λ v. v.items ≡ plan_bytes tiers.now) }
{
    let mut plan = Vec::new(alloc);
    put_halves(&mut plan, &[MAGIC, 1, 1, tiers.len() as u32])?;
    put_words(&mut plan, &[0, 0])?;
    for (i, tier) in tiers.iter().enumerate() {
        put_row(&mut plan, i as u32, *tier)?;
    }
    Ok(plan)
}

// An image and its flags.
#[derive(Drop)]
pub struct Store {
    image: Vec<u8>,
    flags: model::Flags,
}

impl Store {
    // So many bytes of zeros and no flag set: no image yet.
    pub fn new(alloc: Global, len: usize) -> Result<Store, AllocError>
        ensures { IfOk result (λ s. lent s ≡ record { image = replicate len 0; flags = replicate 32 false }) }
    {
        Ok(Store {
            image: vec![in alloc; 0; len]?,
            flags: model::Flags {
                wrapped: [false; 32],
            },
        })
    }

    pub fn image(&self) -> &[u8]
        ensures { result.now ≡ (lent self.now).image }
    {
        self.image.as_slice()
    }

    pub fn flags(&self) -> model::Flags
        ensures { result.wrapped ≡ (lent self.now).flags }
    {
        self.flags
    }

    pub fn create(&mut self, plan: &[u8]) -> Result<(), Refused>
        ensures { (answer_no result ≡ create_check plan.now (lent self.old).image) × (lent self.new ≡ creation plan.now (lent self.old)) }
    {
        Ok(store::create(plan, self.image.as_mut_slice(), &mut self.flags)?)
    }

    pub fn open(&mut self) -> Result<(), Refused>
        ensures { (answer_no result ≡ open_check (lent self.old).image) × (lent self.new ≡ opening (lent self.old)) }
    {
        Ok(store::open(self.image.as_slice(), &mut self.flags)?)
    }

    #[tactic(auto, unfolding(model::specs::Store::outcome_reply))]
    pub fn record(
        &mut self,
        handle: model::SeriesHandle,
        value: u64,
        stamp: u64,
    ) -> Result<(), Refused>
        ensures { done_of (answer_reply result) (lent self.new) ≡ call (lent self.old) (record_call handle.schema handle.column value stamp) }
    {
        let image = self.image.as_mut_slice();
        Ok(store::record(image, &mut self.flags, handle, value, stamp)?)
    }

    // Records a number in a column of the first schema.
    pub fn sample(&mut self, column: u32, value: f64, stamp: u64) -> Result<(), Refused>
        ensures { done_of (answer_reply result) (lent self.new) ≡ call (lent self.old) (record_call 0 column (to_bits binary64 value) stamp) }
    {
        let handle = model::SeriesHandle { schema: 0, column };
        self.record(handle, f64_to_bits_with_nan(value), stamp)
    }

    #[tactic(auto, unfolding(model::specs::Store::outcome_reply))]
    pub fn record_batch(&mut self, batch: &[u8], stamp: u64) -> Result<(), Refused>
        ensures { done_of (answer_reply result) (lent self.new) ≡ call (lent self.old) (batch_call (entries batch.now) stamp) }
    {
        let image = self.image.as_mut_slice();
        Ok(store::record_batch(image, &mut self.flags, batch, stamp)?)
    }

    // Consolidates: how many values were written.
    #[tactic(auto, unfolding(model::specs::Store::consolidated_reply))]
    pub fn run(&mut self) -> Result<u64, Refused>
        ensures { done_of (run_reply result) (lent self.new) ≡ call (lent self.old) consolidate_call }
    {
        Ok(store::consolidate(self.image.as_mut_slice(), &mut self.flags)?)
    }

    // Queries a tier: the answer, and its points.
    pub fn query(
        &self,
        handle: model::SeriesHandle,
        tier: u32,
        start: u64,
        end: u64,
    ) -> Result<(model::Found, Points<'_>), Refused>
        ensures { Asked (lent self.now) (query_call handle.schema handle.column tier start end) result }
    {
        answer_of(store_reads::query(self.image(), self.flags, handle, tier, start, end))
    }

    // Queries the tier that covers the range best.
    pub fn query_auto(
        &self,
        handle: model::SeriesHandle,
        start: u64,
        end: u64,
    ) -> Result<(model::Found, Points<'_>), Refused>
        ensures { Asked (lent self.now) (auto_call handle.schema handle.column start end) result }
    {
        answer_of(store_reads::query_auto(self.image(), self.flags, handle, start, end))
    }

    // Writes eight bytes into the image, if there is room for them: no call of the library, but what somebody else may do.
    pub fn write(&mut self, at: usize, value: u64) -> Option<()>
        ensures room { IsSome result ↔ (at + 8 ≤ length (lent self.old).image) }
        ensures written { IfSome result (λ _. lent self.new ≡ record (lent self.old) { image = put 8 (lent self.old).image at value }) }
        ensures none { IfNone result (lent self.new ≡ lent self.old) }
    {
        let image = self.image.as_mut_slice();
        word(image, at)?;
        field::put_u64(image, at, value);
        Some(())
    }
}

// A query's answer with its points, or its refusal.
fn answer_of(answer: store_reads::QueryResult<'_>) -> Result<(model::Found, Points<'_>), Refused>
    ensures { MatchResult answer.entry.queried (λ f. result ≡ Ok (f, record { 0 = answer.entry.reader })) (λ r. IsErrOf result (record { 0 = number_of r })) }
{
    let found = answer.queried?;
    Ok((found, Points(answer.reader)))
}

// The points of a reading.
#[derive(Clone, Copy)]
pub struct Points<'a>(store_reads::Reader<'a>);

impl<'a> Iterator for Points<'a> {
    type Item = model::Point;

    ghost next_gives = { λ s r t. (r ≡ (step_of s.0).next) × (t.0 ≡ later s.0) };

    ghost remaining = { λ s. at_most s.0.left };

    fn next(&mut self) -> Option<model::Point> {
        store_reads::next(&mut self.0)
    }
}

#[cfg(test)]
mod tests {
    use super::*;
    use std::test::Fail;

    // Example J of document 01, in tiers of 10 and 30: 1, 2, 6 at 30, 40, 50 give 3 at 30, the mark is 50 (crates/worked/stdout).
    #[test]
    fn means_are_read(rt: HostRuntime) -> Result<(), Fail> {
        let tiers = [10, 30].map(|interval| Tier {
            interval,
            retention: 90,
        });
        let plan = plan(rt.alloc(), &tiers)?;
        let mut store = Store::new(rt.alloc(), 592)?;
        store.create(plan.as_slice())?;
        for (stamp, value) in [(30, 1.0), (40, 2.0), (50, 6.0)] {
            store.sample(0, value, stamp)?;
        }
        assert_eq!(rt; store.run()?, 1);
        assert_eq!(rt; word(store.image(), 80), Some(50));
        let handle = model::SeriesHandle {
            schema: 0,
            column: 0,
        };
        let (found, mut points) = store.query(handle, 1, 0, u64::MAX)?;
        assert_eq!(rt; found.newest, Some(30));
        let point = points.next().ok_or("no point")?;
        assert_eq!(rt; point.stamp, 30);
        assert_eq!(rt; point.value, 0x4008_0000_0000_0000);
        assert!(rt; points.next().is_none());
        Ok(())
    }
}
