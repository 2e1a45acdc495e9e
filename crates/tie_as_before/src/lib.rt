// The claim that histories in time order behave as before request 2026-05, about the code. `run_after` creates a store in a lent slice, carries out calls and runs.
// What it ensures (specs/RanAfter.antt) holds for every plan, slice, flags and calls in bytes; nothing is required.
#![tactic(auto)]

ghost use Rattle.consolidate.specs.Parts.{run_done};
ghost use Rattle.tie_calls.specs.Encoded.{calls_in};
ghost use Rattle.tie_as_before.specs.RanAfter.{RanAfter};

// From a plan through calls to a run's answer and flags.
pub fn run_after(
    plan: &[u8],
    image: &mut [u8],
    flags: model::Flags,
    calls: &[u8],
) -> model::Called<Result<u64, model::Refusal>>
    ensures { RanAfter plan.now image.old flags.wrapped (calls_in calls.now) (run_done image.new result) }
{
    let made = create::create(plan, image, flags);
    let fresh = made.flags;
    let next = tie_calls::carry_out(image, fresh, calls);
    consolidate::consolidate(image, next)
}
