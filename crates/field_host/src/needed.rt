// How long the slices of a job have to be.
// Kept: the parameters, arrays with a count beside them too, are what C lends.
ghost use Rattle.std.specs.Prelude.{◌≡◌};
ghost use Rattle.field_host.specs.Given.{input_lent};
ghost use Rattle.field_host.specs.Needed.{any_refusal, lengths_left};
ghost use Rattle.field_host.specs.Answers.{outcome_number};

use crate::given::input_given;
use causes::Cause;
use grid::SizedGrid;
use input::{Input, Lengths};

// The cause that an open of the input meets on the longest slices.
fn any_refusal(input: &Input) -> Result<(), Cause>
    ensures { result ≡ any_refusal input.now }
{
    let most = 18446744073709551615;
    let longest = Lengths {
        kinds: most,
        numbers: most,
        places: most,
        store: most,
        corners: most,
    };
    input::open_refusal(input, longest)
}

// Writes the lengths of kinds, numbers, places, store and corners that an open of this input needs.
// Refused by the causes 1 to 5 of an open.
#[tactic(auto, unfolding(crate::specs::Needed::lengths_left))]
pub fn jisampode_lengths(
    settings: &[f64; 9],
    inner: u32,
    leaf: u32,
    parts: &[u32; 192],
    reals: &[f64; 256],
    count: u32,
    lengths: &mut [usize; 5],
) -> u32
    ensures answer { result ≡ outcome_number (any_refusal (input_lent settings inner leaf parts reals count)) }
    ensures lengths { lengths.new
        ≡ lengths_left lengths.old (any_refusal (input_lent settings inner leaf parts reals count))
        (input_lent settings inner leaf parts reals count).grid }
{
    let input = input_given(settings, inner, leaf, parts, reals, count);
    if let Err(cause) = any_refusal(&input) {
        return cause.number();
    }
    let grid = SizedGrid { grid: input.grid };
    let l = input::needed_lengths(grid);
    *lengths = [l.kinds, l.numbers, l.places, l.store, l.corners];
    0
}
