// How long the slices of a job have to be.
ghost use Rattle.std.specs.Prelude.{◌≡◌};
ghost use Rattle.field_host.specs.Given.{input_lent};
ghost use Rattle.field_host.specs.Needed.{any_refusal, lengths_left};
ghost use Rattle.field_host.specs.Answers.{outcome_number};

// Writes the lengths of kinds, numbers, places, store and corners that an open of this input needs.
// Refused by the causes 1 to 5 of an open.
#[unsafe(no_mangle)]
pub extern "C" fn jisampode_lengths(
    settings: &[f64; 9],
    inner: u32,
    leaf: u32,
    parts: &[u32; 192],
    reals: &[f64; 256],
    count: u32,
    lengths: &mut [usize; 5],
) -> u32
    ensures answer { result ≡ outcome_number (any_refusal (input_lent settings inner leaf parts reals count)) }
    ensures lengths { lengths.new
        ≡ lengths_left lengths.old (any_refusal (input_lent settings inner leaf parts reals count))
        (input_lent settings inner leaf parts reals count).grid }
{
    field_host::jisampode_lengths(settings, inner, leaf, parts, reals, count, lengths)
}
