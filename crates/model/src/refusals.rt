// The test of cause 4, and what it asks of each part.
ghost use Rattle.std.specs.Prelude.{◌≡◌, length, map};
ghost use Rattle.model.specs.Part.{part_in, inputs_below};
ghost use Rattle.model.specs.Model.{ordered_to, refused_by_four};

use super::{ImplicitModel, MOST_PARTS, ModelComponent, Part};

// Whether each input of a part stands below the place p.
#[tactic(auto, unfolding(crate::specs::Part::inputs_below))]
pub fn inputs_below(part: Part, p: usize) -> bool
    ensures { result ≡ inputs_below p part }
{
    match part {
        Part::Constant(_) | Part::Sphere(_, _) | Part::Plane(_, _) => true,
        Part::Min(a, b) | Part::Max(a, b) | Part::Add(a, b) | Part::Sub(a, b) => {
            (a as usize) < p && (b as usize) < p
        }
        Part::Neg(a) => (a as usize) < p,
    }
}

// Whether each of some parts has its inputs before it.
fn ordered(parts: &[ModelComponent]) -> bool
    ensures { result ≡ ordered_to (map part_in parts.now) (length parts.now) }
{
    for (p, component) in parts.iter().enumerate() {
        if !inputs_below(component.part, p) {
            return false;
        }
    }
    true
}

// Whether cause 4 refuses a model: no parts, too many, or a part with an input that does not stand before it.
#[tactic(auto, unfolding(crate::specs::Model::refused_by_four))]
pub fn cause_four(model: &ImplicitModel) -> bool
    ensures { result ≡ refused_by_four model.now }
{
    let count = model.count as usize;
    count == 0 || count > MOST_PARTS || !ordered(&model.parts[..count])
}
