// The number of an answer, by which callers know it.
ghost use Rattle.std.specs.Prelude.{◌≡◌};
ghost use Rattle.field_host.specs.Answers.{outcome_number};

use causes::Cause;

// The cause that refused a call, and 0 for none.
pub fn number<T: Copy>(answer: Result<T, Cause>) -> u32
    ensures { result ≡ outcome_number answer }
{
    match answer {
        Ok(_) => 0,
        Err(cause) => cause.number(),
    }
}
