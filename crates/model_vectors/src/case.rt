// A case that lines build: a point, and a model part by part.
ghost use Rattle.std.specs.Prelude.{◌≡◌};
ghost use Rattle.model_vectors.specs.Case.{longer, started, with_part};

use geometry::Vec3;
use model::{ImplicitModel, ModelComponent, Part};

// Kept: no derived equality, as a model has none.
#[derive(Clone, Copy, Debug)]
pub struct Case {
    pub point: Vec3,
    pub model: ImplicitModel,
}

// A point, and a model without parts.
pub fn start(point: Vec3) -> Case
    ensures { result ≡ started point }
{
    let none = ModelComponent {
        part: Part::Constant(0.0),
    };
    let model = ImplicitModel {
        parts: [none; 64],
        count: 0,
    };
    Case { point, model }
}

// One part more. A part past the 64th is only counted.
pub fn with_part(case: Case, part: Part) -> Case
    ensures { result ≡ with_part case part }
{
    Case {
        point: case.point,
        model: longer_model(case.model, part),
    }
}

fn longer_model(model: ImplicitModel, part: Part) -> ImplicitModel
    ensures { result ≡ longer model part }
{
    let count = model.count;
    let mut parts = model.parts;
    if count < 64 {
        parts[count as usize] = ModelComponent { part };
        return ImplicitModel {
            parts,
            count: count + 1,
        };
    }
    ImplicitModel { parts, count: 65 }
}
