// The checks of a schema by its tiers, in document 01's order: 2, 3, each tier's 4 then 5, then 6, 7; schema by schema.
#![tactic(auto)]

ghost use Rattle.std.specs.Prelude.{◌≡◌, ◌+◌, ◌*◌, ◌<◌, ◌≤◌, length};
ghost use Rattle.model.specs.Words.{outcome_no};
ghost use Rattle.model.specs.Image.{tier_check, tier_checks, tiers_of, rising, schema_check, schema_checks};
ghost use Rattle.rows.specs.Rows.{rows_to};
ghost use Rattle.rows.specs.Checks.{Checks};
ghost use Rattle.schema.specs.Tiers.{tiers_at, reach};

// One tier: 4 for its interval and retention, then 5 for its slots.
pub fn checked_tier(r: model::Row) -> Result<model::Row, model::Refusal>
    ensures { Checks result r (tier_check r) }
{
    let n = layout::row_slots(r);
    let spans = (0 < r.interval)
        & (r.interval < format::TOP)
        & (0 < r.retention)
        & (r.retention < format::TOP)
        & (r.interval <= r.retention);
    if !spans {
        return Err(model::Refusal::InvalidTierConfig);
    }
    if n > format::SLOTS {
        return Err(model::Refusal::TooManySlots);
    }
    Ok(r)
}

// The first tier of schema j.
fn first_tier(table: &rows::Table, j: u64) -> Option<usize>
    ensures { (tiers_of j (rows_to table.now.bytes.now table.now.count 0) ≡ tiers_at table.now.bytes.now table.now.count j result) × (reach result ≤ table.now.count) }
{
    for i in 0..table.count {
        let r = table.row(i);
        if (r.schema as u64) == j {
            return Some(i);
        }
    }
    None
}

// 4 then 5 of each tier of schema j.
fn check_tiers(table: &rows::Table, j: u64) -> Result<(), model::Refusal>
    ensures { outcome_no result ≡ tier_checks tier_check (tiers_of j (rows_to table.now.bytes.now table.now.count 0)) }
{
    for i in 0..table.count {
        let r = table.row(i);
        if (r.schema as u64) != j {
            continue;
        }
        checked_tier(r)?;
    }
    Ok(())
}

// The intervals of schema j's tiers rise, from p's on, in the rows from `from` on.
fn is_rising(table: &rows::Table, j: u64, from: usize, p: model::Row) -> bool
    requires { from ≤ table.now.count }
    ensures { result ≡ rising p (tiers_of j (rows_to table.now.bytes.now table.now.count from)) }
{
    let mut good = true;
    let mut finer = p;
    for i in from..table.count {
        let r = table.row(i);
        if (r.schema as u64) != j {
            continue;
        }
        good &= finer.interval < r.interval;
        finer = r;
    }
    good
}

// Schema j.
pub fn check_schema(table: &rows::Table, j: u64) -> Result<(), model::Refusal>
    ensures { outcome_no result ≡ schema_check tier_check (tiers_of j (rows_to table.now.bytes.now table.now.count 0)) }
{
    let Some(i) = first_tier(table, j) else {
        return Err(model::Refusal::NoTiers);
    };
    let r = table.row(i);
    if r.series == 0 {
        return Err(model::Refusal::InvalidMaxSeries);
    }
    check_tiers(table, j)?;
    let function = r.function;
    let rises = is_rising(table, j, i + 1, r);
    if !rises {
        return Err(model::Refusal::TiersNotOrdered);
    }
    if function != 0 {
        return Err(model::Refusal::ConsolidationOnHighestTier);
    }
    Ok(())
}

// The schemas below k.
pub fn check_schemas(table: &rows::Table, k: u64) -> Result<(), model::Refusal>
    ensures { outcome_no result ≡ schema_checks tier_check 0 k (rows_to table.now.bytes.now table.now.count 0) }
{
    for j in 0..k {
        check_schema(table, j)?;
    }
    Ok(())
}
