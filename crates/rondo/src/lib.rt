// The calls as programs in C and in Rust link them (c/include/rondo.h): numbers and byte slices alone. The flags are one number, bit i row i's flag, so every
// number can be lent. Each answers 0, or the number of its refusal. No caller tests anything first.
#![tactic(auto)]

ghost use Rattle.std.specs.Prelude.{◌≡◌, ◌/◌, length};
ghost use Rattle.std.proofs.lemmas.List.Edits.{sets};
ghost use Rattle.model.specs.Image.{plan_check, image_length, create_check, open_check};
ghost use Rattle.model.specs.Lent.{creation, opening};
ghost use Rattle.model.specs.Record.{entries};
ghost use Rattle.model.specs.Query.{query, query_auto};
ghost use Rattle.model.specs.Figure.{panel, service};
ghost use Rattle.model.specs.Store.{call, record_call, batch_call, consolidate_call};
ghost use Rattle.flag_bits.specs.Bits.{bit_of};
ghost use Rattle.flag_bits.specs.One.{lent_at};
ghost use Rattle.fetch.specs.Fetch.{words};
ghost use Rattle.rondo.specs.Edge.{done_as, stored_unless_refused, reply_no, count_on, end_no, found_words, queried_no, queried_words, query_no, query_words, step_at, place_words, next_no, point_words, fetch_at};
ghost use Rattle.rondo.specs.Figures.{panel_no, shown_as, whole_as, service_no, figure_words, service_words};

// The size of the image that a plan needs. A refused plan leaves `size`.
#[unsafe(no_mangle)]
pub extern "C" fn rondo_image_size(plan: &[u8], size: &mut u64) -> u32
    ensures { (result ≡ plan_check plan.now) × (size.new ≡ stored_unless_refused (plan_check plan.now) size.old (image_length plan.now)) }
{
    let checked = image::check_plan(plan);
    let Ok(()) = checked else {
        return model::outcome_number(checked);
    };
    *size = image::length_of(plan);
    0
}

// Creates a plan's image at the start of `image`. The first flags become false, one a row; later bytes and flags stay.
#[unsafe(no_mangle)]
pub extern "C" fn rondo_create(plan: &[u8], image: &mut [u8], flags: &mut u32) -> u32
    ensures answer { result ≡ create_check plan.now image.old }
    ensures left { lent_at image.new flags.new ≡ creation plan.now (lent_at image.old flags.old) }
{
    let wrapped = flag_bits::flags_of(*flags);
    let done = create::create(plan, image, wrapped);
    let created = done.flags;
    *flags = flag_bits::number_of(created);
    model::outcome_number(done.answer)
}

// Checks an image and works out the flags of its rows, each from the stamps above its ring's cursor. Flags past them stay.
#[unsafe(no_mangle)]
pub extern "C" fn rondo_open(image: &[u8], flags: &mut u32) -> u32
    ensures answer { result ≡ open_check image.now }
    ensures left { lent_at image.now flags.new ≡ opening (lent_at image.now flags.old) }
{
    let wrapped = flag_bits::flags_of(*flags);
    let done = open::open(image, wrapped);
    let opened = done.flags;
    *flags = flag_bits::number_of(opened);
    model::outcome_number(done.answer)
}

// Records one value, given by its 64-bit pattern.
#[unsafe(no_mangle)]
pub extern "C" fn rondo_record(
    image: &mut [u8],
    flags: &mut u32,
    schema: u32,
    column: u32,
    value: u64,
    stamp: u64,
) -> u32
    ensures { done_as result (lent_at image.new flags.new) ≡ call (lent_at image.old flags.old) (record_call schema column value stamp) }
{
    let handle = model::SeriesHandle { schema, column };
    let opened = image_quick::check(image);
    if opened != 0 {
        return opened;
    }
    record::record_opened(image, flags, handle, value, stamp)
}

// Records a batch of values at one stamp: 16 bytes an entry, schema u32, column u32, value u64.
#[unsafe(no_mangle)]
pub extern "C" fn rondo_record_batch(
    image: &mut [u8],
    flags: &mut u32,
    batch: &[u8],
    stamp: u64,
) -> u32
    ensures { done_as result (lent_at image.new flags.new) ≡ call (lent_at image.old flags.old) (batch_call (entries batch.now) stamp) }
{
    let opened = image_quick::check(image);
    if opened != 0 {
        return opened;
    }
    let done = batch::batch_opened(image, *flags, batch, stamp);
    *flags = done.flags;
    model::outcome_number(done.answer)
}

// A query's answer as numbers; an end that is missing is 0.
fn found_words(f: model::Found) -> [u64; 11]
    ensures { result ≡ found_words f }
{
    let place = f.place;
    [
        f.tier as u64,
        f.oldest.unwrap_or(0),
        f.newest.unwrap_or(0),
        f.start,
        f.end,
        f.incomplete as u64,
        f.column as u64,
        f.from as u64,
        f.to as u64,
        place.slot as u64,
        place.left as u64,
    ]
}

// A service figure as numbers; an end that is missing is 0.
fn figure_words(f: model::ServiceFigure) -> [u64; 5]
    ensures { result ≡ figure_words f }
{
    let oldest = f.oldest.unwrap_or(0);
    let newest = f.newest.unwrap_or(0);
    [1, f.stamp, f.value, oldest, newest]
}

// Stores a query's answer, and answers its number.
fn answer_query(reply: Result<model::Found, model::Refusal>, answer: &mut [u64; 11]) -> u32
    ensures { (result ≡ queried_no reply) × (answer.new ≡ queried_words reply answer.old) }
{
    match reply {
        Ok(f) => {
            *answer = found_words(f);
            0
        }
        Err(r) => model::refusal_number(r),
    }
}

// Looks a series up in a tier, for the points from `start` up to `end`.
#[unsafe(no_mangle)]
pub extern "C" fn rondo_query(
    image: &[u8],
    flags: u32,
    schema: u32,
    column: u32,
    tier: u32,
    start: u64,
    end: u64,
    answer: &mut [u64; 11],
) -> u32
    ensures number { result ≡ query_no (query (lent_at image.now flags) schema column tier start end) }
    ensures words { answer.new ≡ query_words (query (lent_at image.now flags) schema column tier start end) answer.old }
{
    let handle = model::SeriesHandle { schema, column };
    let opened = image_quick::check(image);
    if opened != 0 {
        return opened;
    }
    let image = lookup::Image { bytes: image };
    let reply = query::query_numbered(&image, flags, handle, tier, start, end);
    answer_query(reply, answer)
}

// Looks a series up in the tier that covers the range best.
#[unsafe(no_mangle)]
pub extern "C" fn rondo_query_auto(
    image: &[u8],
    flags: u32,
    schema: u32,
    column: u32,
    start: u64,
    end: u64,
    answer: &mut [u64; 11],
) -> u32
    ensures number { result ≡ query_no (query_auto (lent_at image.now flags) schema column start end) }
    ensures words { answer.new ≡ query_words (query_auto (lent_at image.now flags) schema column start end) answer.old }
{
    let handle = model::SeriesHandle { schema, column };
    let opened = image_quick::check(image);
    if opened != 0 {
        return opened;
    }
    let image = lookup::Image { bytes: image };
    let reply = query::auto_numbered(&image, flags, handle, start, end);
    answer_query(reply, answer)
}

// One step of a query's reader over its slab, which is the part of the image that the answer names: 1 for a point, 0 at the end, which leaves `point`.
#[unsafe(no_mangle)]
pub extern "C" fn rondo_next(
    slab: &[u8],
    column: u32,
    start: u64,
    end: u64,
    place: &mut [usize; 2],
    point: &mut [u64; 2],
) -> u32
    ensures answer { result ≡ next_no (step_at slab.now column start end place.old).next }
    ensures moved { place.new ≡ place_words (step_at slab.now column start end place.old).place }
    ensures handed { point.new ≡ point_words (step_at slab.now column start end place.old).next point.old }
{
    let from = model::Place {
        slot: place[0],
        left: place[1],
    };
    let stepped = reader::step(slab, column, start, end, from);
    let to = stepped.place;
    *place = [to.slot, to.left];
    let next = stepped.next;
    match next {
        Some(p) => {
            *point = [p.stamp, p.value];
            1
        }
        None => 0,
    }
}

// Steps of a query's reader in one call: stores points, two words each (stamp, value), as many as `points` has room for, and answers how many. Fewer than there
// is room for: the reader is at its end.
#[unsafe(no_mangle)]
pub extern "C" fn rondo_read(
    slab: &[u8],
    column: u32,
    start: u64,
    end: u64,
    place: &mut [usize; 2],
    points: &mut [u64],
) -> usize
    ensures count { result ≡ length (fetch_at (length points.old / 2) slab.now column start end place.old).points }
    ensures moved { place.new ≡ place_words (fetch_at (length points.old / 2) slab.now column start end place.old).place }
    ensures stored { points.new ≡ sets points.old 0 (words (fetch_at (length points.old / 2) slab.now column start end place.old).points) }
{
    let slot = place[0];
    let left = place[1];
    let at = model::Place { slot, left };
    let fetched = fetch::fetch(slab, column, start, end, at, points);
    let behind = fetched.place;
    *place = [behind.slot, behind.left];
    fetched.count
}

// The panel's figure: 1 in `shown` and the whole number in `figure`; where there is no point 0 in `shown`, which leaves `figure`. A refusal leaves both.
#[unsafe(no_mangle)]
pub extern "C" fn rondo_panel(
    image: &[u8],
    flags: u32,
    schema: u32,
    column: u32,
    tier: u32,
    shown: &mut u32,
    figure: &mut i64,
) -> u32
    ensures number { result ≡ panel_no (panel (lent_at image.now flags) schema column tier) }
    ensures presence { shown.new ≡ shown_as (panel (lent_at image.now flags) schema column tier) shown.old }
    ensures whole { figure.new ≡ whole_as (panel (lent_at image.now flags) schema column tier) figure.old }
{
    let handle = model::SeriesHandle { schema, column };
    let opened = image_quick::check(image);
    if opened != 0 {
        return opened;
    }
    let image = lookup::Image { bytes: image };
    let reply = figure::panel_numbered(&image, flags, handle, tier);
    match reply {
        Ok(Some(whole)) => {
            *shown = 1;
            *figure = whole;
            0
        }
        Ok(None) => {
            *shown = 0;
            0
        }
        Err(r) => model::refusal_number(r),
    }
}

// The service figure: 1, stamp, value, oldest, newest; where there is no point 0 in the first word, which leaves the others. A refusal leaves all.
#[unsafe(no_mangle)]
pub extern "C" fn rondo_service(
    image: &[u8],
    flags: u32,
    schema: u32,
    column: u32,
    tier: u32,
    figure: &mut [u64; 5],
) -> u32
    ensures number { result ≡ service_no (service (lent_at image.now flags) schema column tier) }
    ensures words { figure.new ≡ service_words (service (lent_at image.now flags) schema column tier) figure.old }
{
    let handle = model::SeriesHandle { schema, column };
    let opened = image_quick::check(image);
    if opened != 0 {
        return opened;
    }
    let image = lookup::Image { bytes: image };
    let reply = figure::service_numbered(&image, flags, handle, tier);
    match reply {
        Ok(Some(f)) => {
            *figure = figure_words(f);
            0
        }
        Ok(None) => {
            figure[0] = 0;
            0
        }
        Err(r) => model::refusal_number(r),
    }
}

// Brings every coarser tier up to date, and counts the values written. A refusal leaves `count`; what was done before it stays.
#[unsafe(no_mangle)]
pub extern "C" fn rondo_consolidate(image: &mut [u8], flags: &mut u32, count: &mut u64) -> u32
    ensures number { result ≡ reply_no (call (lent_at image.old flags.old) consolidate_call).reply }
    ensures counted { count.new ≡ count_on (call (lent_at image.old flags.old) consolidate_call).reply count.old }
    ensures left { lent_at image.new flags.new ≡ (call (lent_at image.old flags.old) consolidate_call).lent }
{
    let wrapped = flag_bits::flags_of(*flags);
    let done = consolidate::consolidate(image, wrapped);
    let filled = done.flags;
    *flags = flag_bits::number_of(filled);
    let answer = done.answer;
    match answer {
        Ok(k) => {
            *count = k;
            0
        }
        Err(r) => model::refusal_number(r),
    }
}
