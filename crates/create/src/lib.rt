// Creation by value: the plan's checks, 9 for a short slice, then the image at the start of the lent slice and the first R flags false. Later bytes and
// later flags stay; a refusal changes nothing.
#![tactic(auto)]

ghost use Rattle.std.specs.Prelude.{◌≡◌, false, ◌++◌, ◌≤◌, replicate, drop};
ghost use Rattle.model.specs.Words.{outcome_no};
ghost use Rattle.model.specs.Image.{create_check};
ghost use Rattle.model.specs.Lent.{creation};
ghost use Rattle.image.specs.Lent.{lent};

// The first n flags false.
fn cleared(mut wrapped: [bool; 32], n: usize) -> model::Flags
    requires { n ≤ 32 }
    ensures { result.wrapped ≡ replicate n false ++ drop n wrapped }
{
    wrapped[..n].fill(false);
    model::Flags { wrapped }
}

// A plan's image in a lent slice, with flags by value.
pub fn create(
    plan: &[u8],
    image: &mut [u8],
    flags: model::Flags,
) -> model::Called<Result<(), model::Refusal>>
    ensures { (outcome_no result.answer ≡ create_check plan.now image.old) × (lent image.new result.flags ≡ creation plan.now (lent image.old flags)) }
{
    let checked = image::check_plan(plan);
    let Ok(()) = checked else {
        return model::Called {
            answer: checked,
            flags,
        };
    };
    let len = image::length_of(plan);
    if (image.len() as u64) < len {
        return model::Called {
            answer: Err(model::Refusal::ShortBuffer),
            flags,
        };
    }
    let n = field::get_u32(plan, format::HEADER_ROWS) as usize;
    let wrapped = flags.wrapped;
    let next = cleared(wrapped, n);
    image_build::put_image(plan, image);
    model::Called {
        answer: Ok(()),
        flags: next,
    }
}
