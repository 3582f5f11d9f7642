// An axis that is cut into steps.
// Kept: two ends and a count, and no struct of them, which each caller would make for one call.
ghost use Rattle.std.specs.Prelude.{◌≡◌};
ghost use Rattle.geometry.specs.Axis.{step_along, along, along_end};

// One step of an axis from `least` to `most` that is cut into so many.
#[tactic(auto, unfolding(crate::specs::Axis::step_along))]
pub fn step_along(least: f64, most: f64, steps: u64) -> f64
    ensures { result ≡ step_along least most steps }
{
    float::computed((most - least) / float::from_count(steps))
}

// Where number i of the steps begins.
#[tactic(auto, unfolding(crate::specs::Axis::along))]
pub fn along(least: f64, most: f64, steps: u64, i: u64) -> f64
    ensures { result ≡ along least most steps i }
{
    float::computed(least + float::from_count(i) * step_along(least, most, steps))
}

// Where number i of the steps ends.
#[tactic(auto, unfolding(crate::specs::Axis::along_end))]
pub fn along_end(least: f64, most: f64, steps: u64, i: u64) -> f64
    ensures { result ≡ along_end least most steps i }
{
    float::computed(along(least, most, steps, i) + step_along(least, most, steps))
}
