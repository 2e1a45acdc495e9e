// The claim on opening about the code. `ask_after` creates a store in a lent slice, carries out calls, opens it anew with whatever flags it is handed, carries out
// further calls and queries. What it ensures is that image and answer are those without the opening (specs/Resumed.antt), for every plan, slice, flags and calls in
// bytes; nothing is required. A point takes two words of `out`: stamp, then value; the words past the points stay.
#![tactic(auto)]

ghost use Rattle.std.specs.Prelude.{◌≡◌};
ghost use Rattle.model.specs.Store.{call, after, queried_reply};
ghost use Rattle.lookup.specs.Parts.{lent_of};
ghost use Rattle.tie_calls.specs.Encoded.{calls_in};
ghost use Rattle.reopening.specs.Reopening.{reopened};
ghost use Rattle.tie_reopening.specs.Resumed.{history, asks, AsWithout};

// A query of a tier, or an automatic one, whose tier does not count.
#[derive(Clone, Copy)]
pub struct Question {
    pub handle: model::SeriesHandle,
    pub automatic: bool,
    pub tier: u32,
    pub start: u64,
    pub end: u64,
}

// The flags as the last call left them, the answer, and how many points were written out.
#[derive(Clone, Copy)]
pub struct Answer {
    pub flags: model::Flags,
    pub queried: Result<model::Found, model::Refusal>,
    pub count: usize,
}

// Creates, carries out the calls before the opening, opens, and carries out those after it. Answers the flags; those before the opening are lost.
fn carry_through(
    plan: &[u8],
    image: &mut [u8],
    flags: model::Flags,
    before: &[u8],
    handed: model::Flags,
    next: &[u8],
) -> model::Flags
    ensures { lent_of image.new result ≡ after (reopened (history plan.now image.old flags before.now handed)) (calls_in next.now) }
{
    let made = create::create(plan, image, flags);
    let fresh = made.flags;
    let lost = tie_calls::carry_out(image, fresh, before);
    let opened = open::open(image, handed);
    let again = opened.flags;
    tie_calls::carry_out(image, again, next)
}

// Asks a question of a store.
fn ask(
    image: &[u8],
    flags: model::Flags,
    question: Question,
) -> Result<model::Found, model::Refusal>
    ensures { queried_reply image.now result ≡ (call (lent_of image.now flags) (asks question)).reply }
{
    if question.automatic {
        return query::query_auto(image, flags, question.handle, question.start, question.end);
    }
    query::query(
        image,
        flags,
        question.handle,
        question.tier,
        question.start,
        question.end,
    )
}

// From a plan through an opening to the answer and its points.
pub fn ask_after(
    plan: &[u8],
    image: &mut [u8],
    flags: model::Flags,
    before: &[u8],
    handed: model::Flags,
    next: &[u8],
    question: Question,
    out: &mut [u64],
) -> Answer
    ensures { AsWithout (history plan.now image.old flags before.now handed) next.now question image.new result out.old out.new }
{
    let last = carry_through(plan, image, flags, before, handed, next);
    let queried = ask(image, last, question);
    let count = tie_points::hand_answer(image, queried, out);
    Answer {
        flags: last,
        queried,
        count,
    }
}
