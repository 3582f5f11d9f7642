// Small values become +0.
ghost use Rattle.std.specs.Prelude.{◌≡◌, map, length, if◌then◌else◌};
ghost use Rattle.dense_field.specs.Field.{values_refused};
ghost use Rattle.dense_field.specs.Outcomes.{outcome_of};
ghost use Rattle.dense_field.specs.Threshold.{cut, thresholded};

use crate::counts;
use causes::Cause;
use geometry::Vec3i;

// +0 for a value whose size is below the limit, else the value as it is. Two comparisons stand for
// the one of |v|, so that the loop below compiles to vector instructions.
fn cut(limit: f64, v: f64) -> f64
    ensures { result ≡ cut limit v }
{
    if v < limit && -v < limit { 0.0 } else { v }
}

fn cut_all(limit: f64, values: &mut [f64])
    ensures { values.new ≡ map (cut limit) values.old }
{
    for v in values {
        *v = cut(limit, *v);
    }
}

// Sets every value whose size is below the limit to +0. A refusal changes nothing.
#[tactic(auto, unfolding(crate::specs::Outcomes::outcome_of, causes::specs::First::first_of))]
pub fn threshold(n: Vec3i, limit: f64, values: &mut [f64]) -> Result<(), Cause>
    ensures answer { result ≡ outcome_of n (length values.old) }
    ensures values { values.new
        ≡ (if values_refused n (length values.old) then values.old else thresholded limit values.old) }
{
    counts::tested(n, values.len())?;
    cut_all(limit, values);
    Ok(())
}
