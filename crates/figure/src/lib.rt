// The panel's figure and the service figure by value: opening's order on every call, then 11 and 14; the last point that a reading over all time hands out, as a
// whole number or 17 for the panel, in full with both ends for service tools. Nothing that is lent changes. `panel_numbered` and `service_numbered` have the
// flags as one number, as they cross the edge to C, once opening's check has passed.
#![tactic(auto)]

ghost use Rattle.std.specs.Prelude.{◌≡◌, ◌<◌, Ok};
ghost use Rattle.model.specs.Image.{row_at, row_count};
ghost use Rattle.model.specs.Ring.{oldest, newest};
ghost use Rattle.model.specs.Figure.{shown_point, served_point, panel_reply, service_reply, panel, service};
ghost use Rattle.lookup.specs.Parts.{lent_of};
ghost use Rattle.flag_bits.specs.One.{lent_at};
ghost use Rattle.tiers.specs.Reached.{row_ring};
ghost use Rattle.figure_theory.specs.Back.{ring_last};

// The last point of a row's column, the row's flag being `wrapped`.
fn point_at(image: &lookup::Image, row: usize, wrapped: bool, column: u32) -> Option<model::Point>
    requires { (row < row_count image.now.bytes.now) × (column < (row_at image.now.bytes.now row).series) }
    ensures { result ≡ ring_last (row_ring image.now.bytes.now row wrapped) column }
{
    let s = image.slab_at(row);
    let from = s.from;
    let to = s.to;
    let z = s.sizes;
    let slab = ring::Slab {
        bytes: &image.bytes[from..to],
        slots: z.slots,
        series: z.series,
    };
    figure_point::last_point(&slab, column as usize, wrapped)
}

// The point on the panel.
fn shown_point(last: Option<model::Point>) -> Result<Option<i64>, model::Refusal>
    ensures { panel_reply result ≡ shown_point last }
{
    match last {
        Some(p) => figure_value::panel_of(p.value),
        None => Ok(None),
    }
}

// The panel's figure, once opening's check has passed, with the flags as a number, of which one is read.
pub fn panel_numbered(
    image: &lookup::Image,
    flags: u32,
    handle: model::SeriesHandle,
    tier: u32,
) -> Result<Option<i64>, model::Refusal>
    ensures { panel_reply result ≡ panel (lent_at image.now.bytes.now flags) handle.schema handle.column tier }
{
    let row = query::seek(image, handle, tier, 0, figure_point::END_OF_TIME)?;
    let wrapped = flag_bits::flag_at(flags, row);
    let last = point_at(image, row, wrapped, handle.column);
    shown_point(last)
}

// The service figure of a row's column, the row's flag being `wrapped`. Not over `point_at`: the slab would be looked up twice.
fn service_at(
    image: &lookup::Image,
    row: usize,
    wrapped: bool,
    column: u32,
) -> Option<model::ServiceFigure>
    requires { (row < row_count image.now.bytes.now) × (column < (row_at image.now.bytes.now row).series) }
    ensures { service_reply (Ok result) ≡ served_point (ring_last (row_ring image.now.bytes.now row wrapped) column) (oldest (row_ring image.now.bytes.now row wrapped)) (newest (row_ring image.now.bytes.now row wrapped)) }
{
    let s = image.slab_at(row);
    let from = s.from;
    let to = s.to;
    let z = s.sizes;
    let slab = ring::Slab {
        bytes: &image.bytes[from..to],
        slots: z.slots,
        series: z.series,
    };
    let p = figure_point::last_point(&slab, column as usize, wrapped)?;
    let oldest = ring_ends::oldest(&slab, wrapped);
    let newest = ring_ends::newest(&slab, wrapped);
    Some(model::ServiceFigure {
        stamp: p.stamp,
        value: p.value,
        oldest,
        newest,
    })
}

// The service figure, once opening's check has passed, with the flags as a number, of which one is read. Beside `panel_numbered`: a closure for what is made of the row would be no shorter.
pub fn service_numbered(
    image: &lookup::Image,
    flags: u32,
    handle: model::SeriesHandle,
    tier: u32,
) -> Result<Option<model::ServiceFigure>, model::Refusal>
    ensures { service_reply result ≡ service (lent_at image.now.bytes.now flags) handle.schema handle.column tier }
{
    let row = query::seek(image, handle, tier, 0, figure_point::END_OF_TIME)?;
    let wrapped = flag_bits::flag_at(flags, row);
    let figure = service_at(image, row, wrapped, handle.column);
    Ok(figure)
}

// The panel's figure of a series at a tier.
pub fn panel(
    image: &[u8],
    flags: model::Flags,
    handle: model::SeriesHandle,
    tier: u32,
) -> Result<Option<i64>, model::Refusal>
    ensures { panel_reply result ≡ panel (lent_of image.now flags) handle.schema handle.column tier }
{
    let image = lookup::Image::checked(image)?;
    let number = flag_bits::number_of(flags);
    panel_numbered(&image, number, handle, tier)
}

// The service figure of a series at a tier.
pub fn service(
    image: &[u8],
    flags: model::Flags,
    handle: model::SeriesHandle,
    tier: u32,
) -> Result<Option<model::ServiceFigure>, model::Refusal>
    ensures { service_reply result ≡ service (lent_of image.now flags) handle.schema handle.column tier }
{
    let image = lookup::Image::checked(image)?;
    let number = flag_bits::number_of(flags);
    service_numbered(&image, number, handle, tier)
}
