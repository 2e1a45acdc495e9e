// The theorems on the panel's figure about the code. `same_on_panel` asks the panel of two stores: unless one is refused, stores that agree in the last point's value
// answer the same (specs/Same.antt). `panel_after` creates a store in a lent slice, carries out the calls before a run, the run and the calls between, and asks the panel:
// what it ensures is the bound on the number shown (specs/Bound.antt), for every plan, slice, flags and calls in bytes. Nothing is required.
#![tactic(auto)]

ghost use Rattle.std.specs.Prelude.{◌≡◌};
ghost use Rattle.model.specs.Figure.{panel_reply};
ghost use Rattle.lookup.specs.Parts.{lent_of};
ghost use Rattle.tie.specs.Kept.{situation};
ghost use Rattle.tie_figure.specs.Same.{answer_to, Agreed};
ghost use Rattle.tie_figure.specs.Bound.{Near};

// What a panel is asked of an image: its flags, and which series at which tier.
#[derive(Clone, Copy)]
pub struct Question {
    pub flags: model::Flags,
    pub handle: model::SeriesHandle,
    pub tier: u32,
}

// What two panels answer.
#[derive(Clone, Copy)]
pub struct Panels {
    pub one: Result<Option<i64>, model::Refusal>,
    pub other: Result<Option<i64>, model::Refusal>,
}

// The flags as the last call left them, and what the panel answers.
#[derive(Clone, Copy)]
pub struct After {
    pub flags: model::Flags,
    pub panel: Result<Option<i64>, model::Refusal>,
}

// One question.
fn ask(image: &[u8], q: Question) -> Result<Option<i64>, model::Refusal>
    ensures { panel_reply result ≡ answer_to image.now q }
{
    let flags = q.flags;
    let handle = q.handle;
    figure::panel(image, flags, handle, q.tier)
}

// The panels of two stores.
pub fn same_on_panel(image: &[u8], asked: Question, other: &[u8], also: Question) -> Panels
    ensures { Agreed image.now asked other.now also result.one result.other }
{
    let first = ask(image, asked);
    let second = ask(other, also);
    Panels {
        one: first,
        other: second,
    }
}

// From a plan to the panel after a run: the calls of `tie::demand`, and then another question; a function for the two calls that they share would be no shorter.
pub fn panel_after(
    plan: &[u8],
    image: &mut [u8],
    flags: model::Flags,
    before: &[u8],
    between: &[u8],
    column: u32,
    tier: u32,
) -> After
    ensures { Near (situation plan.now image.old flags before.now between.now column tier) (lent_of image.new result.flags) result.panel }
{
    let made = create::create(plan, image, flags);
    let fresh = made.flags;
    let last = tie::carry_all(image, fresh, before, between);
    let handle = model::SeriesHandle { schema: 0, column };
    let panel = figure::panel(image, last, handle, tier);
    After { flags: last, panel }
}
