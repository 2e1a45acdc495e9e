// The check that a call by value begins with, as its outcome. It asks `image_quick::check`, as record, record_batch and the queries for C do, so that all calls share
// one copy of it; a refusal is asked for once more, by the plain check, for its name.
#![tactic(auto)]

ghost use Rattle.std.specs.Prelude.{◌≡◌};
ghost use Rattle.model.specs.Words.{outcome_no};
ghost use Rattle.model.specs.Image.{open_check};

// An image: accepted, or refused as the plain check says.
pub fn check_image(s: &[u8]) -> Result<(), model::Refusal>
    ensures { outcome_no result ≡ open_check s.now }
{
    let number = image_quick::check(s);
    if number == 0 {
        return Ok(());
    }
    image::check_image(s)
}
