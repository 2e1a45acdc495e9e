// Carries out a stored list of calls through the proved library and compares with the answers that the Rust gave: every answer, point, flag, and the image's
// bytes after each call, by a sum. README.md says how the list (`stdin`) is laid out and how it was made. A line a group of calls, and a total.
#![tactic(auto)]

ghost use Rattle.std.specs.Prelude.{◌≤◌, length};

mod stored;

use anyhow::Result;
use owned::Store;
use std::io::{Read, Write};
use std::{fmt, io};
use stored::{Item, Items, Kind};

// The bytes of a block of the list, and of the image.
const BLOCK: usize = 65_536;

// How many blocks of the list are read at most.
const BLOCKS: u32 = 31;

// How many calls there were, and how many are unlike the stored ones.
#[derive(Clone, Copy, Default)]
struct Tally {
    calls: u64,
    unlike: u64,
}

impl Tally {
    fn count(&mut self, unlike: bool) {
        self.calls = self.calls.saturating_add(1);
        self.unlike = self.unlike.saturating_add(u64::from(unlike));
    }
}

impl fmt::Display for Tally {
    fn fmt<W: fmt::Write>(&self, f: &mut fmt::Formatter<W>) -> fmt::Result {
        write!(f, "{} calls, {} unlike the Rust", self.calls, self.unlike)
    }
}

// Where the list stands: the store, and the tallies of the group and of all.
#[derive(Drop)]
struct Replay {
    store: Store,
    group: Tally,
    all: Tally,
}

impl Replay {
    // One item: the rest of a block, the end of a group, or a call, which is unlike the stored one if its answer is, or the image or a flag after it.
    fn carry(&mut self, rt: &impl Print, item: Item<'_>) {
        let store = &mut self.store;
        let alike = match item.kind() {
            Kind::Rest => return,
            Kind::GroupEnd => return self.end_group(rt, item),
            Kind::Create => item
                .rest(48)
                .is_some_and(|plan| store.create(plan) == item.answer(())),
            Kind::Open => store.open() == item.answer(()),
            Kind::Record => store.record(item.handle(), item.word(64), item.word(72))
                == item.answer(()),
            Kind::Batch => item.rest(56).is_some_and(|entries| store.record_batch(
                entries,
                item.word(48),
            ) == item.answer(())),
            Kind::Query => item.is_answer(store.query(
                item.handle(),
                item.half(64),
                item.word(72),
                item.word(80),
            )),
            Kind::QueryAuto => item.is_answer(store.query_auto(
                item.handle(),
                item.word(72),
                item.word(80),
            )),
            Kind::Run => store.run() == item.answer(item.word(48)),
            Kind::Write => store.write(item.word(48) as usize, item.word(56)).is_some(),
        };
        let unlike = !alike || !item.is_left(&self.store);
        self.group.count(unlike);
        self.all.count(unlike);
    }

    // Ends a group: writes its line, if it can be written. Its name stands in the item from 48 on.
    fn end_group(&mut self, rt: &impl Print, item: Item<'_>) {
        let _ = io::writer(rt).write_all(item.rest(48).unwrap_or_default());
        let _ = println!(rt; ": {}", self.group);
        self.group = Tally::default();
    }
}

// Reads until the block is full, the input ends or a read fails: how many bytes there are. Each turn but the last reads a byte at least.
fn read_block(input: &mut impl Read, block: &mut [u8]) -> usize
    ensures { result ≤ length block.new }
{
    let mut filled = 0;
    for _ in 0..block.len() {
        let rest = &mut block[filled..];
        if rest.is_empty() {
            break;
        }
        match input.read(rest) {
            Ok(n) if 0 < n => filled += n,
            _ => break,
        }
    }
    filled
}

fn main(rt: HostRuntime) -> Result<()> {
    let mut replay = Replay {
        store: Store::new(rt.alloc(), BLOCK)?,
        group: Tally::default(),
        all: Tally::default(),
    };
    let mut input = rt.reader();
    let mut block = vec![in rt.alloc(); 0; BLOCK]?;
    for _ in 0..BLOCKS {
        let filled = read_block(&mut input, block.as_mut_slice());
        for item in Items(&block.as_slice()[..filled]) {
            replay.carry(&rt, item);
        }
    }
    let _ = println!(rt; "all: {}", replay.all);
    Ok(())
}
