// A model's parts in two flat arrays, as hosts carry them: a code, two inputs, a vector and a number for each part,
// each 0 where the part has none.
ghost use Rattle.std.specs.Prelude.{◌≡◌, map, ◌+◌, ◌<◌, length, set};
ghost use Rattle.model.specs.Part.{part_in};
ghost use Rattle.model.specs.Flat.{flat_of, layout_of, code_of, first_input, second_input, vector_of, number_of};

use super::{ImplicitModel, Part};
use geometry::Vec3;

// The code of a part's sort.
#[tactic(auto, unfolding(crate::specs::Flat::code_of))]
fn code(part: Part) -> u32
    ensures { result ≡ code_of part }
{
    match part {
        Part::Constant(_) => 0,
        Part::Sphere(_, _) => 1,
        Part::Plane(_, _) => 2,
        Part::Min(_, _) => 3,
        Part::Max(_, _) => 4,
        Part::Add(_, _) => 5,
        Part::Sub(_, _) => 6,
        Part::Neg(_) => 7,
    }
}

// The places of its inputs.
#[tactic(auto, unfolding(crate::specs::Flat::first_input, crate::specs::Flat::second_input))]
fn inputs(part: Part) -> (u32, u32)
    ensures { (result.0 ≡ first_input part) × (result.1 ≡ second_input part) }
{
    match part {
        Part::Constant(_) | Part::Sphere(_, _) | Part::Plane(_, _) => (0, 0),
        Part::Min(a, b) | Part::Max(a, b) | Part::Add(a, b) | Part::Sub(a, b) => (a, b),
        Part::Neg(a) => (a, 0),
    }
}

// Its vector: a centre or a normal.
#[tactic(auto, unfolding(crate::specs::Flat::vector_of))]
fn vector(part: Part) -> Vec3
    ensures { result ≡ vector_of part }
{
    match part {
        Part::Sphere(vector, _) | Part::Plane(vector, _) => vector,
        _ => Vec3::new(0.0, 0.0, 0.0),
    }
}

// Its number: a value, a radius or an offset.
#[tactic(auto, unfolding(crate::specs::Flat::number_of))]
fn number(part: Part) -> f64
    ensures { result ≡ number_of part }
{
    match part {
        Part::Constant(number) | Part::Sphere(_, number) | Part::Plane(_, number) => number,
        _ => 0.0,
    }
}

// Writes a part's entries at its place in each row of 64.
fn store_part(part: Part, p: usize, words: &mut [u32; 192], numbers: &mut [f64; 256])
    requires { p < 64 }
    ensures words { words.new
        ≡ set (set (set words.old p (code_of part)) (64 + p) (first_input part)) (128 + p) (second_input part) }
    ensures numbers { numbers.new
        ≡ set (set (set (set numbers.old p (vector_of part).x) (64 + p) (vector_of part).y) (128 + p) (vector_of part).z) (192 + p)
        (number_of part) }
{
    let (first, second) = inputs(part);
    let v = vector(part);
    words[p] = code(part);
    words[64 + p] = first;
    words[128 + p] = second;
    numbers[p] = v.x;
    numbers[64 + p] = v.y;
    numbers[128 + p] = v.z;
    numbers[192 + p] = number(part);
}

// Lays a model's parts out in two arrays, whole: the codes, first inputs and second inputs of its 64 parts in one, their
// numbers x, y, z and w in the other. Clearing the arrays first makes their lengths known to the proof.
pub fn lay_out(model: &ImplicitModel, words: &mut [u32; 192], numbers: &mut [f64; 256])
    ensures laid { flat_of words.new numbers.new ≡ layout_of (map part_in model.now.parts) }
    ensures long { length model.now.parts ≡ 64 }
{
    *words = [0; 192];
    *numbers = [0.0; 256];
    for p in 0..64 {
        store_part(model.parts[p].part, p, words, numbers);
    }
}
