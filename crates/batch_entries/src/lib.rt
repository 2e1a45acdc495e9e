// A batch's entries, lent as bytes, 16 each: whether a handle is out of bounds (11 InvalidHandle), whether a value is infinite (12 InvalidValue),
// whether a schema has an entry, whether the stamp is old in the ring of one that has (18 OldSample). A last part shorter than 16 bytes is surplus and never read.
#![tactic(auto)]

ghost use Rattle.std.specs.Prelude.{◌≡◌, true, not};
ghost use Rattle.model.specs.Record.{entries, every_entry, entries_of};
ghost use Rattle.batch_entries.specs.Entries.{fits, finite, taken, is_some};

// An entry's schema or column is out of bounds.
pub fn any_outside(image: &lookup::Image, batch: &[u8]) -> bool
    ensures { result ≡ not (every_entry (fits image.now.bytes.now) (entries batch.now)) }
{
    let count = batch.len() / format::ENTRY;
    for i in 0..count {
        let entry = ring_write::entry_at(batch, i);
        let found = image.finest_row(entry.schema, entry.column);
        let Some(_) = found else {
            return true;
        };
    }
    false
}

// An entry's value is infinite.
pub fn any_infinite(batch: &[u8]) -> bool
    ensures { result ≡ not (every_entry finite (entries batch.now)) }
{
    let count = batch.len() / format::ENTRY;
    for i in 0..count {
        let entry = ring_write::entry_at(batch, i);
        let infinite = field::is_infinite(entry.value);
        if infinite {
            return true;
        }
    }
    false
}

// A schema has an entry.
pub fn has_entry(batch: &[u8], schema: u64) -> bool
    ensures { result ≡ is_some (entries_of schema (entries batch.now)) }
{
    let count = batch.len() / format::ENTRY;
    for i in 0..count {
        let entry = ring_write::entry_at(batch, i);
        if entry.schema == schema {
            return true;
        }
    }
    false
}

// The stamp is old in the finest ring of a schema that has an entry. Schema by schema, so that a ring is asked once.
pub fn any_old(image: &lookup::Image, batch: &[u8], stamp: u64) -> bool
    requires { every_entry (fits image.now.bytes.now) (entries batch.now) ≡ true }
    ensures { result ≡ not (every_entry (taken image.now.bytes.now stamp) (entries batch.now)) }
{
    let count = field::get_u32(image.bytes, format::HEADER_SCHEMAS);
    for k in 0..count {
        let some = has_entry(batch, k);
        if !some {
            continue;
        }
        let row = image.first_row(k);
        let old = image.is_old(row, stamp);
        if old {
            return true;
        }
    }
    false
}
