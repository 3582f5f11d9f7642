// The bits with which a NaN leaf value is printed: they follow from the model alone.
ghost use Rattle.std.specs.Prelude.{◌≡◌, map, ◌<◌, ◌≤◌, length, get_or, take};
ghost use Rattle.model.specs.Part.{part_in};
ghost use Rattle.job_text.specs.NanBits.{computed_nan, nan_of, nan_pattern, job_nan};

use crate::Job;
use model::{ModelComponent, Part};

// The bits of a computed NaN.
const COMPUTED_NAN: u64 = 0x7ff8000000000000;

// Part a's bits among those of earlier parts, and else a computed NaN's.
fn nan_at(earlier: &[u64], a: u32) -> u64
    ensures { result ≡ get_or earlier.now a computed_nan }
{
    earlier.get(a as usize).copied().unwrap_or(COMPUTED_NAN)
}

// A part's bits, from its own pattern and the bits of the parts before it.
#[tactic(auto, unfolding(crate::specs::NanBits::nan_of))]
fn nan_of(part: Part, pattern: u64, earlier: &[u64]) -> u64
    ensures { result ≡ nan_of part pattern earlier.now }
{
    match part {
        Part::Constant(_) => pattern,
        Part::Min(a, _) => nan_at(earlier, a),
        Part::Max(a, _) => nan_at(earlier, a),
        Part::Sphere(_, _) | Part::Plane(_, _) | Part::Add(_, _) | Part::Sub(_, _) | Part::Neg(_) =>
            COMPUTED_NAN,
    }
}

// The bits of the last of some parts.
fn last_nan(parts: &[ModelComponent], patterns: &[u64; 64]) -> u64
    requires some { 0 < length parts.now }
    requires most { length parts.now ≤ 64 }
    ensures { result ≡ nan_pattern (map part_in parts.now) patterns.now (length parts.now) }
{
    let mut nans = [0; 64];
    for (p, component) in parts.iter().enumerate() {
        nans[p] = nan_of(component.part, patterns[p], &nans[..p]);
    }
    nans[parts.len() - 1]
}

// The bits with which a job's NaN leaf values are printed. A part past the array is a constant without bits.
pub fn nan_pattern(job: Job) -> u64
    ensures { result ≡ job_nan job }
{
    let model = job.input.model;
    let Some((parts, _)) = model.parts.split_at_checked(model.count as usize) else {
        return 0;
    };
    if parts.is_empty() {
        return COMPUTED_NAN;
    }
    last_nan(parts, &job.patterns)
}
