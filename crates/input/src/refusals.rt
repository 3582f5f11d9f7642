// The causes by which open refuses an input, in their order.
ghost use Rattle.std.specs.Prelude.{◌≡◌};
ghost use Rattle.input.specs.Causes.{refused_by_three, refused_by_six, refusal_of};

use crate::needed::{is_shorter, needed_lengths};
use crate::{Band, Input, Lengths};
use causes::Cause;
use grid::SizedGrid;

// A limit of the band that is a NaN.
// Kept: grid's cause 1 is two tests joined as well, but of other things.
#[tactic(auto, unfolding(crate::specs::Causes::refused_by_three))]
fn cause_three(band: Band) -> bool
    ensures { result ≡ refused_by_three band }
{
    float::is_nan(band.min) || float::is_nan(band.max)
}

// A slice that is too short.
#[tactic(auto, unfolding(crate::specs::Causes::refused_by_six))]
fn cause_six(g: SizedGrid, lengths: Lengths) -> bool
    ensures { result ≡ refused_by_six g.grid lengths }
{
    is_shorter(lengths, needed_lengths(g))
}

// The first cause by which open refuses an input and the lengths of the slices lent. A later test may go
// by what the earlier ones have ruled out.
#[tactic(auto, unfolding(crate::specs::Causes::refusal_of, crate::specs::Causes::open_causes, causes::specs::First::first_of))]
pub fn open_refusal(input: &Input, lengths: Lengths) -> Result<(), Cause>
    ensures { result ≡ refusal_of input.now lengths }
{
    let g = input.grid;
    if grid::cause_one(g) {
        return Err(Cause::Bounds);
    }
    if grid::cause_two(g) {
        return Err(Cause::BlockSize);
    }
    if cause_three(input.band) {
        return Err(Cause::BandLimit);
    }
    if model::cause_four(&input.model) {
        return Err(Cause::Parts);
    }
    if grid::cause_five(g) {
        return Err(Cause::Nodes);
    }
    if cause_six(SizedGrid { grid: g }, lengths) {
        return Err(Cause::TooShort);
    }
    Ok(())
}
